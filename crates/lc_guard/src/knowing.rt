//! Whether guards are of names that a schema defines.
ghost use Rattle.std.specs.Prelude.{◌≡◌};
ghost use Rattle.sr_caveat.specs.Patterns.{caveats};
ghost use Rattle.sr_caveat.specs.View.{listed_templates, listed_rewrites};
ghost use Rattle.lc_guard.specs.Knowing.{known, all_known, rewrites_known, template_known};
ghost use Rattle.lc_guard.specs.Knowing.{templates_known};

use sr_caveat::{Caveat, Rewrite, Rule, TemplateForm, Tmpl};
use sr_pass::Judge;

/// Whether each guard in the caveats is of a name that the schema defines, those in templates among
/// them. It goes into caveats as deep as they nest.
#[cycle(all_known)]
pub fn all_known<J: Judge>(judge: &J, list: &[Caveat]) -> bool
    ensures { result ≡ all_known (J.schema judge.now) (caveats list.now) }
{
    for caveat in list {
        if !known(judge, caveat) {
            return false;
        }
    }
    true
}

#[cycle(all_known)]
fn known<J: Judge>(judge: &J, caveat: &Caveat) -> bool
    ensures { result ≡ known (J.schema judge.now) caveat.now }
{
    match &*caveat.rule {
        Rule::Rewrite(rewrite) => template_known(judge, &rewrite.template),
        Rule::Or(rewrites) => rewrites_known(judge, rewrites),
        Rule::Reject(_) => true,
        Rule::Guard(name) => judge.knows(name.as_bytes()),
    }
}

#[cycle(all_known)]
fn rewrites_known<J: Judge>(judge: &J, rewrites: &[Rewrite]) -> bool
    ensures { result ≡ rewrites_known (J.schema judge.now) (listed_rewrites rewrites.now) }
{
    for rewrite in rewrites {
        if !template_known(judge, &rewrite.template) {
            return false;
        }
    }
    true
}

#[cycle(all_known)]
fn template_known<J: Judge>(judge: &J, template: &Tmpl) -> bool
    ensures { result ≡ template_known (J.schema judge.now) template.now }
{
    match &template.form {
        TemplateForm::Attenuate(inside, list) => {
            template_known(judge, inside) && all_known(judge, list)
        }
        TemplateForm::Ref(_) | TemplateForm::Lit(_) => true,
        TemplateForm::Rec(_, templates) => templates_known(judge, templates),
        TemplateForm::Arr(templates) => templates_known(judge, templates),
        TemplateForm::Dict(_, templates) => templates_known(judge, templates),
    }
}

#[cycle(all_known)]
fn templates_known<J: Judge>(judge: &J, templates: &[Tmpl]) -> bool
    ensures { result ≡ templates_known (J.schema judge.now) (listed_templates templates.now) }
{
    for template in templates {
        if !template_known(judge, template) {
            return false;
        }
    }
    true
}
