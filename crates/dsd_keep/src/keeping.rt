//! What is asked of a file is done.
ghost use Rattle.std.specs.Prelude.{◌≡◌, ◌≢◌, ◌≤◌, [], ◌∷◌, Some, Contains, IfSome, IfOk, IfErr};
ghost use Rattle.std.specs.Prelude.{OnOk, OnErr, IsErrOf, true};
ghost use Rattle.std.specs.Option.{option_map};
ghost use Rattle.out_ports.specs.Ports.{Rose, Appends, AppendsFront};
ghost use Rattle.pv_print.specs.Lines.{lines};
ghost use Rattle.kp_keeper.specs.Records.{with_record, without, is_kept};
ghost use Rattle.kp_keeper.specs.Keeping.{put_answer};
ghost use Rattle.kp_keeper.specs.declared.keeper.Kept.TheVariants as kept_now;
ghost use Rattle.dsd_top.specs.Asked.{texts};
ghost use Rattle.dsd_top.specs.declared.faults.Fault.TheVariants as fault;
ghost use Rattle.dsd_keep.specs.Endings.{left_of, AreLinesOf, IsDoneBy, IsDone, IsUndone, SaysWhy};
ghost use Rattle.dsd_keep.specs.Endings.{IsWhyUnadded, IsWhyUnlisted, IsWhyUnrevoked};
ghost use Rattle.dsd_keep.specs.Endings.{IsWhyUnsettled, IsWhyUndone};
ghost use Rattle.dsd_keep.specs.Folds.{Leave};
ghost use Rattle.dsd_keep.specs.Undone.{bindings_statuses, action_statuses, status_by, line_by};
ghost use Rattle.dsd_keep.specs.Requests.{MakeARequest, IfRequest};
ghost use Rattle.dsd_keep.specs.declared.undone.Undone.TheVariants.{Of, KeeperFailed};
ghost use Rattle.dsd_keep.specs.declared.requests.Action.TheVariants as actions;

use crate::requests::{Action, Request, find_request};
use crate::undone::{Undone, tell_why};
use dsd_top::{Fault, refuse};
use kp_bound::shown_of;
use kp_keeper::{Keeping, Kept, Record};
use out_ports::ports::Sink;
use out_ports::streams::{WriteFault, write_all};
use pv_print::print_into;
use pv_value::{NoMemory, Value};
use std::alloc::Global;

/// Keeps the record, where there is none of its oid and room for it.
fn put<K: Keeping>(keeper: &mut K, added: &Record) -> Result<(), Undone>
    ensures done { OnOk result (IfSome (K.kept keeper.old)
        (λ rs. put_answer added.now rs ≡ kept_now.Done)) }
    ensures kept { OnOk result
        (K.kept keeper.new ≡ option_map (with_record added.now) (K.kept keeper.old)) }
    ensures same { OnErr result (K.kept keeper.new ≡ K.kept keeper.old) }
    ensures cause { IfErr result (IsWhyUnadded added.now (K.kept keeper.old)) }
    ensures keeper_failed { IsErrOf result KeeperFailed →
        Rose (K.faults keeper.old) (K.faults keeper.new) }
    ensures same_file { K.file keeper.new ≡ K.file keeper.old }
    ensures lasting { K.faults keeper.old ≤ K.faults keeper.new }
{
    match keeper.put(added)? {
        Kept::Done => Ok(()),
        Kept::There => Err(Undone::BoundAlready),
        Kept::Full(_) => Err(Undone::Of(Fault::Limit(6))),
    }
}

/// Lets the record of the oid go, where there is one.
fn remove<K: Keeping>(keeper: &mut K, oid: &[u8]) -> Result<(), Undone>
    ensures done { OnOk result (IfSome (K.kept keeper.old) (λ rs. is_kept oid.now rs ≡ true)) }
    ensures kept { OnOk result
        (K.kept keeper.new ≡ option_map (without oid.now) (K.kept keeper.old)) }
    ensures same { OnErr result (K.kept keeper.new ≡ K.kept keeper.old) }
    ensures cause { IfErr result (IsWhyUnrevoked oid.now (K.kept keeper.old)) }
    ensures keeper_failed { IsErrOf result KeeperFailed →
        Rose (K.faults keeper.old) (K.faults keeper.new) }
    ensures same_file { K.file keeper.new ≡ K.file keeper.old }
    ensures lasting { K.faults keeper.old ≤ K.faults keeper.new }
{
    if keeper.remove(oid)? {
        Ok(())
    } else {
        Err(Undone::NotBound)
    }
}

/// Each value on a line of its own.
fn lines_of(alloc: Global, values: &[Value]) -> Result<Vec<u8>, NoMemory>
    ensures { IfOk result (λ text. text.items ≡ lines values.now) }
{
    let mut text = Vec::new(alloc);
    for value in values {
        print_into(&mut text, value)?;
        text.push(b'\n')?;
    }
    Ok(text)
}

/// The lines that show what is kept.
fn listed<K: Keeping>(alloc: Global, keeper: &mut K) -> Result<Vec<u8>, Undone>
    ensures done { IfOk result (λ text. IsDoneBy actions.List (K.kept keeper.old) text.items) }
    ensures same { K.kept keeper.new ≡ K.kept keeper.old }
    ensures cause { IfErr result (IsWhyUnlisted (K.kept keeper.old)) }
    ensures keeper_failed { IsErrOf result KeeperFailed →
        Rose (K.faults keeper.old) (K.faults keeper.new) }
    ensures same_file { K.file keeper.new ≡ K.file keeper.old }
    ensures lasting { K.faults keeper.old ≤ K.faults keeper.new }
{
    let records = keeper.list()?;
    let values = shown_of(&records)?;
    Ok(lines_of(alloc, &values)?)
}

/// Does it with the file that is open, and answers what is to be written of it.
fn settle<K: Keeping>(alloc: Global, action: Action, keeper: &mut K) -> Result<Vec<u8>, Undone>
    ensures done { IfOk result (λ text. IsDoneBy action (K.kept keeper.old) text.items) }
    ensures left { OnOk result (K.kept keeper.new ≡ left_of action 0 (K.kept keeper.old)) }
    ensures same { OnErr result (K.kept keeper.new ≡ K.kept keeper.old) }
    ensures cause { IfErr result (IsWhyUnsettled action (K.kept keeper.old)) }
    ensures keeper_failed { IsErrOf result KeeperFailed →
        Rose (K.faults keeper.old) (K.faults keeper.new) }
    ensures same_file { K.file keeper.new ≡ K.file keeper.old }
    ensures lasting { K.faults keeper.old ≤ K.faults keeper.new }
{
    match action {
        Action::Add(record, line) => {
            put(keeper, &record)?;
            Ok(line)
        }
        Action::List => listed(alloc, keeper),
        Action::Revoke(oid) => {
            remove(keeper, oid.as_slice())?;
            Ok(Vec::new(alloc))
        }
    }
}

/// Writes a text. The sink isn't called for one of no bytes.
fn write<O: Sink>(out: &mut O, text: &[u8]) -> Result<(), WriteFault>
    ensures written { OnOk result (Appends (O.held out.old) (O.held out.new) text.now) }
    ensures front { OnErr result (AppendsFront (O.held out.old) (O.held out.new) text.now) }
    ensures some { OnErr result (text.now ≢ []) }
    ensures cause { OnErr result (Rose (O.faults out.old) (O.faults out.new)) }
    ensures unfinished { O.finishes out.new ≡ O.finishes out.old }
{
    if text.is_empty() {
        return Ok(());
    }
    write_all(out, text)
}

/// Opens the file and does what is asked with it.
fn act<O: Sink, K: Keeping>(
    alloc: Global,
    request: Request,
    out: &mut O,
    keeper: &mut K,
) -> Result<(), Undone>
    ensures done { OnOk result (IsDone Appends request.entry.action (K.kept keeper.old)
        (O.held out.old) (O.held out.new)) }
    ensures cut { IsErrOf result (Of fault.WriteFailed) → IsDone AppendsFront request.entry.action
        (K.kept keeper.old) (O.held out.old) (O.held out.new) }
    ensures left { OnOk result
        (K.kept keeper.new ≡ left_of request.entry.action 0 (K.kept keeper.old)) }
    ensures left_then { IfErr result (λ why.
        K.kept keeper.new ≡ left_of request.entry.action (status_by why) (K.kept keeper.old)) }
    ensures place { OnOk result (K.file keeper.new ≡ Some request.entry.file) }
    ensures place_then { IfErr result (λ why. status_by why ≢ 5 → status_by why ≢ 15
        → K.file keeper.new ≡ Some request.entry.file) }
    ensures cause { IfErr result (IsWhyUndone request.entry.action (K.kept keeper.old)) }
    ensures keeper_failed { IsErrOf result KeeperFailed →
        Rose (K.faults keeper.old) (K.faults keeper.new) }
    ensures write_failed { IsErrOf result (Of fault.WriteFailed) →
        Rose (O.faults out.old) (O.faults out.new) }
    ensures unwritten { IfErr result (λ why. status_by why ≢ 4
        → O.held out.new ≡ O.held out.old) }
    ensures unfinished { O.finishes out.new ≡ O.finishes out.old }
    ensures lasting { K.faults keeper.old ≤ K.faults keeper.new }
{
    keeper.keep(request.file)?;
    let text = settle(alloc, request.action, keeper)?;
    write(out, &text)?;
    Ok(())
}

/// Does what is asked, and answers the status.
fn obey<O: Sink, E: Sink, K: Keeping>(
    alloc: Global,
    request: Request,
    out: &mut O,
    diag: &mut E,
    keeper: &mut K,
) -> u8
    ensures known { Contains action_statuses result }
    ensures cause { result ≢ 0 → (why : _) × (status_by why ≡ result)
        × IsWhyUndone request.entry.action (K.kept keeper.old) why }
    ensures done { result ≡ 0 → IsDone Appends request.entry.action (K.kept keeper.old)
        (O.held out.old) (O.held out.new) }
    ensures cut { result ≡ 4 → IsDone AppendsFront request.entry.action (K.kept keeper.old)
        (O.held out.old) (O.held out.new) }
    ensures left { K.kept keeper.new ≡ left_of request.entry.action result (K.kept keeper.old) }
    ensures place { result ≢ 5 → result ≢ 15 → K.file keeper.new ≡ Some request.entry.file }
    ensures keeper_failed { result ≡ 15 → Rose (K.faults keeper.old) (K.faults keeper.new) }
    ensures write_failed { result ≡ 4 → Rose (O.faults out.old) (O.faults out.new) }
    ensures unwritten { result ≢ 0 → result ≢ 4 → O.held out.new ≡ O.held out.old }
    ensures unfinished { (O.finishes out.new ≡ O.finishes out.old)
        × (E.finishes diag.new ≡ E.finishes diag.old) }
    ensures lasting { K.faults keeper.old ≤ K.faults keeper.new }
    ensures silent { result ≡ 0 → E.held diag.new ≡ E.held diag.old }
    ensures said { result ≢ 0 → (why : _) × (status_by why ≡ result)
        × IsWhyUndone request.entry.action (K.kept keeper.old) why
        × AppendsFront (E.held diag.old) (E.held diag.new) (line_by why) }
    ensures said_all { result ≢ 0 → (Rose (E.faults diag.old) (E.faults diag.new) → ⊥)
        → (why : _) × (status_by why ≡ result)
        × IsWhyUndone request.entry.action (K.kept keeper.old) why
        × Appends (E.held diag.old) (E.held diag.new) (line_by why) }
{
    match act(alloc, request, out, keeper) {
        Ok(()) => 0,
        Err(why) => tell_why(diag, why),
    }
}

/// Does what the words say, and answers the status. They are read whole before the file is opened,
/// and `add` makes its line before it keeps its record. The line on standard error tells why the
/// status isn't 0; what can't be written there is left.
///
/// What the clauses say of what is kept holds of a keeper that tells it.
pub fn bindings_words<O: Sink, E: Sink, K: Keeping>(
    alloc: Global,
    words: &[String],
    out: &mut O,
    diag: &mut E,
    keeper: &mut K,
) -> u8
    // Each status, and when it comes. Where the words are of the table, no count rose and no cause
    // of 6, 7, 16 or 17 stands, the status is 0, or 5 for want of memory.
    ensures known { Contains bindings_statuses result }
    ensures words { result ≡ 2 → MakeARequest (texts words.now) → ⊥ }
    ensures other_words { (MakeARequest (texts words.now) → ⊥) → Contains (2 ∷ 5 ∷ []) result }
    ensures cause { result ≢ 0 → IsUndone (texts words.now) (K.kept keeper.old) result }
    ensures keeper_failed { result ≡ 15 → Rose (K.faults keeper.old) (K.faults keeper.new) }
    ensures write_failed { result ≡ 4 → Rose (O.faults out.old) (O.faults out.new) }

    // What is written, of a keeper that tells what it keeps by that.
    ensures done { result ≡ 0 → IfRequest (texts words.now) (λ w. IsDone Appends w.action
        (K.kept keeper.old) (O.held out.old) (O.held out.new)) }
    ensures cut { result ≡ 4 → IfRequest (texts words.now) (λ w. IsDone AppendsFront w.action
        (K.kept keeper.old) (O.held out.old) (O.held out.new)) }
    ensures unwritten { result ≢ 0 → result ≢ 4 → O.held out.new ≡ O.held out.old }

    // What is kept, and in which file: the one opened last is that of the words.
    ensures left { Leave (texts words.now) result (K.kept keeper.old) (K.kept keeper.new) }
    ensures place { result ≢ 2 → result ≢ 5 → result ≢ 15 → IfRequest (texts words.now)
        (λ w. K.file keeper.new ≡ Some w.file) }

    // What stands after it.
    ensures unasked { result ≡ 2 → (out.new ≡ out.old) × (keeper.new ≡ keeper.old) }
    ensures unfinished { (O.finishes out.new ≡ O.finishes out.old)
        × (E.finishes diag.new ≡ E.finishes diag.old) }
    ensures lasting { K.faults keeper.old ≤ K.faults keeper.new }

    // Standard error: nothing at 0, else a front of the line of a cause that stands, with its
    // number, and all of it where the count of its faults hasn't risen.
    ensures silent { result ≡ 0 → E.held diag.new ≡ E.held diag.old }
    ensures said { result ≢ 0 → SaysWhy AppendsFront (texts words.now) (K.kept keeper.old) result
        (E.held diag.old) (E.held diag.new) }
    ensures said_all { result ≢ 0 → (Rose (E.faults diag.old) (E.faults diag.new) → ⊥)
        → SaysWhy Appends (texts words.now) (K.kept keeper.old) result
        (E.held diag.old) (E.held diag.new) }
{
    match find_request(alloc, words) {
        Ok(request) => obey(alloc, request, out, diag, keeper),
        Err(fault) => refuse(diag, Fault::from(fault)),
    }
}
