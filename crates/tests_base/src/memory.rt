use crate::comparing::same;
use ipc_base::push;
use std::alloc::Global;
use std::process::Abort;

fn list_of_two(rt: &impl Abort, memory: Global) -> Vec<u64> {
    let mut items = Vec::new(memory);
    push(memory, &mut items, 7).ok().expect(rt, "memory");
    push(memory, &mut items, 8).ok().expect(rt, "memory");
    items
}

#[test]
fn a_list_grows(rt: HostRuntime) {
    let items = list_of_two(&rt, rt.alloc());
    same(&rt, items.as_slice(), [7, 8].as_slice());
}
