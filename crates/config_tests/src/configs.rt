//! Configurations over the plain body of a dataspace.

use ds_space::PlainSpace;
use lc_guard::Predicate;
use lc_watch::Table;
use ps_check::conforms;
use ps_schema::Schema;
use pv_value::Value;
use sc_config::{ConfigFault, configured};
use std::alloc::Global;

const ROOMS: &str = r#"
    <schema "version 1 . Greeting = <hello string> .">
    <bind "hall" #x"00010203" 1 [<guard Greeting>]>
    <bind "room" #x"04050607" 2 []>
"#;

const OPEN_BEHIND: &str = r#"<bind "hall" #x"00010203" 1 []> <open 1>"#;

const UNKNOWN_GUARD: &str = r#"
    <schema "version 1 . Greeting = <hello string> .">
    <bind "hall" #x"00010203" 1 [<guard Parting>]>
"#;

const BOUND_TWICE: &str = r#"<bind "hall" #x"00010203" 1 []> <bind "hall" #x"04050607" 2 []>"#;

const WATCHER: &str = "<watch 1 <_> 2 size>";

const NO_BEHAVIOUR: &str = "<watch 1 <_> 2 name>";

/// Answers what conforms.
#[derive(Drop)]
struct Checked;

impl Predicate for Checked {
    fn holds(&self, schema: &Schema, name: &[u8], value: &Value) -> bool {
        conforms(schema, name, value)
    }
}

/// Why a text is no configuration; none where it is one, to which no connection has come.
fn fault_of(alloc: Global, text: &str) -> Option<ConfigFault> {
    match configured::<PlainSpace, Checked, Table>(alloc, text.as_bytes(), Checked, Table) {
        Ok(hub) if hub.opened() == 0 => None,
        Ok(_) => Some(ConfigFault::NoMemory),
        Err(fault) => Some(fault),
    }
}

#[test]
fn texts_are_configurations_or_not(rt: HostRuntime) {
    assert!(rt; fault_of(rt.alloc(), ROOMS).is_none());
    assert!(rt; fault_of(rt.alloc(), OPEN_BEHIND) == Some(ConfigFault::Bad(1)));
    assert!(rt; fault_of(rt.alloc(), UNKNOWN_GUARD) == Some(ConfigFault::Bad(1)));
    assert!(rt; fault_of(rt.alloc(), BOUND_TWICE) == Some(ConfigFault::Bad(1)));
    assert!(rt; fault_of(rt.alloc(), WATCHER).is_none());
    assert!(rt; fault_of(rt.alloc(), NO_BEHAVIOUR) == Some(ConfigFault::Bad(0)));
}
