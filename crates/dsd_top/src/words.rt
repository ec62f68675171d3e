//! The program's words, and what they ask for.
ghost use Rattle.std.specs.Prelude.{◌≡◌, ◌≤◌, ◌-◌, ◌^◌};
ghost use Rattle.dsd_top.specs.Commands.{texts, request_of, named, named_with, named_before};
ghost use Rattle.dsd_top.specs.Commands.{load_by};
ghost use Rattle.dsd_top.specs.Numbers.{number_within};
ghost use Rattle.dsd_top.specs.Commands.{usage, version, is_serve as begins_with_serve};
ghost use Rattle.sc_load.specs.Limits.{most_items};

use crate::numbers::number_within;
use std::marker::Model;

/// The answer to `--help`: the words, a line each.
const USAGE: &str = "usage: dsd WORD, from standard input to standard output
  run           the report of a script's run, in binary
  run --text    the same of a script in text, in text
  canon         binary values, each in its canonical form
  text          binary values, each printed on a line
  binary        text values, each in its written binary spelling
  check FILE NAME
                of each text value, whether it conforms to the schema's NAME
  mint OID KEY CAVEAT..
                the signed reference, from no input
  load START N
                a run of a generated script: holdings, and the sum of what they capture
  serve ADDR CONFIG WORKERS CONNECTIONS
                serves so many links at the address, from no input
  query ADDR REF PATTERN N
                what matches the pattern there, as it comes and goes: N lines, from no input
  bindings FILE add OID KEY SPACE CAVEAT..
                keeps a binding in the file: its signed reference, from no input
  bindings FILE list
                the bindings that the file keeps, from no input
  bindings FILE revoke OID
                keeps the binding no longer, from no input
  serve-kept ADDR FILE WORKERS CONNECTIONS
                the same by the bindings that the file keeps, from no input
  --help        these lines
  --version     the version
";

/// The answer to `--version`.
const VERSION: &str = "dsd 0.1.0\n";

/// The most caveats that `mint` takes.
const CAVEATS: usize = 32;

/// The most items of a load.
const ITEMS: u64 = 20_000;

/// What is made of the input alone.
#[derive(Clone, Copy)]
pub enum Making {
    /// The report of a script's run.
    Run,
    /// The report of a script's run, both in text.
    RunText,
    /// Each binary value in its canonical form.
    CanonicalForms,
    /// Each binary value printed.
    Printed,
    /// Each text value in its written spelling.
    Written,
}

/// A schema's file, and a name that the schema is to know.
#[derive(Drop)]
pub struct Checking<'a> {
    pub file: &'a str,
    pub name: &'a str,
}

impl<'a> Model for Checking<'a> {
    ghost use Rattle.dsd_top.specs.Asked.{Checking};

    ghost Value = { Checking };

    ghost view = { λ c. record { file = c.file.now; name = c.name.now } };
}

/// What is made of the input.
#[derive(Drop)]
pub enum Command<'a> {
    Make(Making),
    /// Whether each text value conforms to the name's definition.
    Check(Checking<'a>),
}

/// The words for a signed reference: an oid, a key in hexadecimal, and caveats, the oldest first.
#[derive(Drop)]
pub struct Minting<'a> {
    pub oid: &'a str,
    pub key: &'a str,
    pub caveats: &'a [String],
}

impl<'a> Model for Minting<'a> {
    ghost use Rattle.dsd_top.specs.Asked.{Minting, texts};

    ghost Value = { Minting };

    ghost view = { λ m. record {
      oid = m.oid.now;
      key = m.key.now;
      caveats = texts m.caveats.now;
    } };
}

/// Where the draws of a load begin, and how many items it has.
#[derive(Drop)]
pub struct Loading {
    start: u64,
    count: u32,
}

impl Model for Loading {
    ghost use Rattle.std.specs.Prelude.{◌≤◌};
    ghost use Rattle.sc_load.specs.Limits.{most_items};
    ghost use Rattle.dsd_top.specs.Asked.{Loading};

    ghost Value = { Loading };

    ghost view = { λ l. record { start = l.start; count = l.count } };

    ghost invariant = { λ l. (1 ≤ l.count) × (l.count ≤ most_items) };
}

impl Loading {
    pub fn start(&self) -> u64
        ensures { result ≡ self.now.start }
    {
        self.start
    }

    pub fn count(&self) -> u32
        ensures count { result ≡ self.now.count }
        ensures some { 1 ≤ result }
        ensures few { result ≤ most_items }
    {
        self.count
    }
}

/// A text that is told with no input.
#[derive(Drop)]
pub enum Notice<'a> {
    /// The words.
    Usage,
    /// The version.
    Version,
    /// A signed reference.
    Reference(Minting<'a>),
    /// What a load leaves.
    Load(Loading),
}

/// What the words ask for.
#[derive(Drop)]
pub enum Request<'a> {
    /// What a command makes of the input.
    Do(Command<'a>),
    /// A notice, for which no input is read.
    Tell(Notice<'a>),
}

/// The words, a line each.
#[tactic(auto, unfolding(crate::specs::Commands::usage))]
pub fn usage() -> &'static str
    ensures { result.now ≡ usage }
{
    USAGE
}

/// The program's name and its version, on a line.
#[tactic(auto, unfolding(crate::specs::Commands::version))]
pub fn version() -> &'static str
    ensures { result.now ≡ version }
{
    VERSION
}

/// What one word asks for.
fn find_word(word: &str) -> Option<Request<'_>>
    ensures { result ≡ named word.now }
{
    match word {
        "run" => Some(Request::Do(Command::Make(Making::Run))),
        "canon" => Some(Request::Do(Command::Make(Making::CanonicalForms))),
        "text" => Some(Request::Do(Command::Make(Making::Printed))),
        "binary" => Some(Request::Do(Command::Make(Making::Written))),
        "--help" => Some(Request::Tell(Notice::Usage)),
        "--version" => Some(Request::Tell(Notice::Version)),
        _ => None,
    }
}

/// What two words ask for.
fn find_with<'a>(word: &str, option: &str) -> Option<Request<'a>>
    ensures { result ≡ named_with word.now option.now }
{
    if word == "run" && option == "--text" {
        return Some(Request::Do(Command::Make(Making::RunText)));
    }
    None
}

/// What a word asks for with two others, and what stands behind them.
fn find_before<'a>(
    word: &str,
    first: &'a str,
    second: &'a str,
    rest: &'a [String],
) -> Option<Request<'a>>
    ensures { result ≡ named_before word.now first.now second.now (texts rest.now) }
{
    if word == "check" && rest.is_empty() {
        let (file, name) = (first, second);
        return Some(Request::Do(Command::Check(Checking { file, name })));
    }
    if word == "mint" && rest.len() <= CAVEATS {
        return Some(Request::Tell(Notice::Reference(Minting {
            oid: first,
            key: second,
            caveats: rest,
        })));
    }
    if word == "load" && rest.is_empty() {
        return find_load(first, second);
    }
    None
}

/// What `load` asks for, by its two numbers.
fn find_load<'a>(start: &str, count: &str) -> Option<Request<'a>>
    ensures { result ≡ load_by
        (number_within 0 (2 ^ 64 - 1) start.now) (number_within 1 most_items count.now) }
{
    let start = number_within(start, 0, u64::MAX)?;
    let count = number_within(count, 1, ITEMS)? as u32;
    Some(Request::Tell(Notice::Load(Loading { start, count })))
}

/// What the words ask for, where they are of the table. Whether those of `mint` are a key and
/// values isn't looked at here.
pub fn find_request(words: &[String]) -> Option<Request<'_>>
    ensures { result ≡ request_of (texts words.now) }
{
    if words.len() == 1 {
        return find_word(words[0].as_str());
    }
    if words.len() == 2 {
        return find_with(words[0].as_str(), words[1].as_str());
    }
    if words.len() >= 3 {
        let (first, second) = (words[1].as_str(), words[2].as_str());
        return find_before(words[0].as_str(), first, second, &words[3..]);
    }
    None
}

/// Whether the first word begins with `serve`, which wants threads.
pub fn is_serve(words: &[String]) -> bool
    ensures { result ≡ begins_with_serve (texts words.now) }
{
    match words.first() {
        Some(word) => word.as_bytes().starts_with(b"serve"),
        None => false,
    }
}
