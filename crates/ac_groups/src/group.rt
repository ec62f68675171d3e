//! One group: its facet, and the handles of its keys by the rest of each.
//!
//! A group stands only while it has a facet or a handle.
ghost use Rattle.std.specs.Prelude.{◌≡◌, ◌&&◌, None, Some, OnOk, OnErr, IfOk, if◌then◌else◌};
ghost use Rattle.std.specs.Prelude.{option_and_then};
ghost use Rattle.std.specs.BTreeMap.{IsOrdered};
ghost use Rattle.pv_value.specs.Plain.{Plain};
ghost use Rattle.pv_value.specs.Order.{order};
ghost use Rattle.pv_words.specs.Parts.{same};
ghost use Rattle.pv_marks.specs.MarkedOrder.{marked_order};
ghost use Rattle.ac_groups.specs.Groups.{group_of};
ghost use Rattle.ac_groups.specs.Kept.{group_at, handle_in, facet_in, is_bare, NoneBare};

use crate::parts::group_of;
use pv_marks::Marked;
use pv_value::{NoMemory, Value};
use std::alloc::Global;
use std::collections::BTreeMap;

/// A group of keys: its facet, if it has one, and the handle of each key `[o c]` by c.
#[derive(Drop)]
pub(crate) struct Group {
    pub(crate) facet: Option<u32>,
    pub(crate) handles: BTreeMap<Value, u64>,
}

/// Groups, by what the keys of each begin with: found by its mark, and compared only where two
/// marks are equal.
pub(crate) type ByGroup = BTreeMap<Marked, Group>;

/// The handle that a key had, and the facet of its group.
#[derive(Drop)]
pub struct Taken {
    pub handle: Option<u64>,
    pub facet: Option<u32>,
}

impl Group {
    /// Whether neither a facet nor a handle is left.
    fn is_bare(&self) -> bool
        ensures { result ≡ is_bare self.now }
    {
        self.facet.is_none() && self.handles.is_empty()
    }
}

/// The facet of a group.
fn facet_at(groups: &ByGroup, group: &Marked) -> Option<u32>
    ensures { result ≡ facet_in (group_at groups.now group.now) }
{
    let group = groups.get(group)?;
    group.facet
}

/// The facet of a key's group.
pub(crate) fn facet_of(groups: &ByGroup, key: &Value) -> Result<Option<u32>, NoMemory>
    ensures { IfOk result (λ facet. facet
        ≡ option_and_then (λ o. facet_in (group_at groups.now o)) (group_of key.now)) }
{
    let Some(group) = group_of(key) else {
        return Ok(None);
    };
    let marked = Marked::of(group)?;
    Ok(facet_at(groups, &marked))
}

/// The handle of a key goes out of its group, and with what is last in it the group.
pub(crate) fn take(groups: &mut ByGroup, group: &Marked, rest: &Value) -> Taken
    requires { NoneBare groups.old }
    ensures handle { result.handle ≡ handle_in (group_at groups.old group.now) rest.now }
    ensures facet { result.facet ≡ facet_in (group_at groups.old group.now) }
    ensures handles { (o c : Plain) → handle_in (group_at groups.new o) c
        ≡ (if same group.now o && same rest.now c then None
        else handle_in (group_at groups.old o) c) }
    ensures facets { (o : Plain) → facet_in (group_at groups.new o)
        ≡ facet_in (group_at groups.old o) }
    ensures none_bare { NoneBare groups.new }
    ensures ordered { IsOrdered marked_order groups.new }
{
    let Some(it) = groups.get_mut(group) else {
        return Taken {
            handle: None,
            facet: None,
        };
    };
    let handle = it.handles.remove(rest);
    let facet = it.facet;
    if it.is_bare() {
        let _ = groups.remove(group);
    }
    Taken { handle, facet }
}

/// A group's facet goes, and with what is last in it the group.
pub(crate) fn take_facet(groups: &mut ByGroup, group: &Marked)
    requires { NoneBare groups.old }
    ensures handles { (o c : Plain) → handle_in (group_at groups.new o) c
        ≡ handle_in (group_at groups.old o) c }
    ensures facets { (o : Plain) → facet_in (group_at groups.new o)
        ≡ (if same group.now o then None else facet_in (group_at groups.old o)) }
    ensures none_bare { NoneBare groups.new }
    ensures ordered { IsOrdered marked_order groups.new }
{
    let Some(it) = groups.get_mut(group) else {
        return;
    };
    it.facet = None;
    if it.is_bare() {
        let _ = groups.remove(group);
    }
}

/// A key of a group has a handle from now on; answers the facet of the group. For want of memory
/// nothing changes.
pub(crate) fn put(
    alloc: Global,
    groups: &mut ByGroup,
    group: Marked,
    rest: &Value,
    handle: u64,
) -> Result<Option<u32>, NoMemory>
    requires { NoneBare groups.old }
    ensures facet { IfOk result (λ facet. facet ≡ facet_in (group_at groups.old group)) }
    ensures handles { OnOk result ((o c : Plain) → handle_in (group_at groups.new o) c
        ≡ (if same group o && same rest.now c then Some handle
        else handle_in (group_at groups.old o) c)) }
    ensures handles_stand { OnErr result ((o c : Plain) → handle_in (group_at groups.new o) c
        ≡ handle_in (group_at groups.old o) c) }
    ensures facets { (o : Plain) → facet_in (group_at groups.new o)
        ≡ facet_in (group_at groups.old o) }
    ensures none_bare { NoneBare groups.new }
    ensures ordered { IsOrdered marked_order groups.new }
{
    let _ = groups.len();
    let rest = rest.copy()?;
    if let Some(it) = groups.get_mut(&group) {
        it.handles.insert(rest, handle)?;
        return Ok(it.facet);
    }
    let mut handles = BTreeMap::new(alloc);
    handles.insert(rest, handle)?;
    let it = Group {
        facet: None,
        handles,
    };
    groups.insert(group, it)?;
    Ok(None)
}

/// A group has a facet from now on. For want of memory nothing changes.
pub(crate) fn put_facet(
    alloc: Global,
    groups: &mut ByGroup,
    group: Marked,
    facet: u32,
) -> Result<(), NoMemory>
    requires { NoneBare groups.old }
    ensures handles { (o c : Plain) → handle_in (group_at groups.new o) c
        ≡ handle_in (group_at groups.old o) c }
    ensures facets { OnOk result ((o : Plain) → facet_in (group_at groups.new o)
        ≡ (if same group o then Some facet else facet_in (group_at groups.old o))) }
    ensures facets_stand { OnErr result ((o : Plain) → facet_in (group_at groups.new o)
        ≡ facet_in (group_at groups.old o)) }
    ensures none_bare { NoneBare groups.new }
    ensures ordered { IsOrdered marked_order groups.new }
{
    if let Some(it) = groups.get_mut(&group) {
        it.facet = Some(facet);
        return Ok(());
    }
    let it = Group {
        facet: Some(facet),
        handles: BTreeMap::new(alloc),
    };
    groups.insert(group, it)?;
    Ok(())
}
