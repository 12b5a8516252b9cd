// What the system tells of a process.
use ipc_host::field;
use std::process::Abort;

const STATUS: &str =
    "Name:\tl4d\nSigBlk:\t0000000000004002\nMax open files            64    128 files\n";

// A name, and what is found of it.
const FIELDS: [(&str, Option<&str>); 3] = [
    ("SigBlk:", Some("0000000000004002")),
    ("Max open files", Some("64    128 files")),
    ("VmRSS:", None),
];

fn assert_field(rt: &impl Abort, name: &str, wanted: Option<&str>) {
    assert_eq!(*rt; field(STATUS, name), wanted, "{name}");
}

#[test]
fn fields(rt: HostRuntime) {
    for (name, wanted) in &FIELDS {
        assert_field(&rt, name, *wanted);
    }
}
