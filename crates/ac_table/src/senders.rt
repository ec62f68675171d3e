//! What each sender's loads come to.
ghost use Rattle.std.specs.Prelude.{◌≡◌, ◌<◌, ◌≤◌, ◌+◌, ◌^◌, OnOk, OnErr};
ghost use Rattle.ac_table.specs.Inboxes.{sent_by, AddsAt, KeepsSome};

use crate::loads::{Load, Total};
use pv_value::NoMemory;
use std::collections::BTreeMap;

/// One load more of a sender's; nothing makes no entry.
pub(crate) fn add_sent(
    senders: &mut BTreeMap<u32, Total>,
    sender: u32,
    load: Load,
) -> Result<(), NoMemory>
    requires count { (sent_by sender senders.old.entries).count + load.count < 2 ^ 128 }
    requires weight { (sent_by sender senders.old.entries).weight + load.weight < 2 ^ 128 }
    ensures added { OnOk result (AddsAt sender load senders.old.entries senders.new.entries) }
    ensures same { OnErr result (senders.new.entries ≡ senders.old.entries) }
    ensures kept { KeepsSome senders.old.entries → KeepsSome senders.new.entries }
{
    if load.is_nothing() {
        return Ok(());
    }
    if let Some(total) = senders.get_mut(&sender) {
        total.add(load);
        return Ok(());
    }
    let mut total = Total::none();
    total.add(load);
    senders.insert(sender, total)?;
    Ok(())
}

/// One load less; a sender of which nothing is left has no entry.
pub(crate) fn take_off_sent(senders: &mut BTreeMap<u32, Total>, sender: u32, load: Load)
    requires count { load.count ≤ (sent_by sender senders.old.entries).count }
    requires weight { load.weight ≤ (sent_by sender senders.old.entries).weight }
    ensures taken { AddsAt sender load senders.new.entries senders.old.entries }
    ensures kept { KeepsSome senders.old.entries → KeepsSome senders.new.entries }
{
    let Some(total) = senders.get_mut(&sender) else {
        return;
    };
    total.take_off(load);
    if total.is_nothing() {
        senders.remove(&sender);
    }
}
