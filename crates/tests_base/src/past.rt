use crate::comparing::same;
use ipc_base::Past;
use std::mem::size_of;
use std::sync::Mutex;

fn sent<T: Send + Drop>(_value: T) {}

#[test]
fn takes_no_memory_and_goes_to_another_thread(rt: HostRuntime) {
    let mut past = Past::new();
    past.add(&7u64);
    past.add(&8u64);
    sent(Mutex::new(past));
    same(&rt, size_of::<Past<u64>>(), 0);
}
