use crate::comparing::{holds, same};
use ipc_words::{
    Control, IpcError, MaskedControl, MsgTag, Period, Phase, TagFields, ThreadId, Timeouts,
    next_version,
};

#[test]
fn there_is_nothing_past_the_last_word(rt: HostRuntime) {
    same(&rt, IpcError::message_overflow(Phase::Send, 1 << 60), None);
    same(&rt, IpcError::aborted(Phase::Send, 1 << 60), None);
    same(&rt, next_version(4_294_967_295), None);
    same(&rt, ThreadId::global(1, 64), None);
    same(&rt, ThreadId::global(0xffff_ffff, 0xffff_ffff), None);
}

#[test]
fn one_of_two_timeouts_is_a_time_point(rt: HostRuntime) {
    let point = Timeouts::from_word(0x8000_0400);
    same(&rt, point.receive(), Some(Period::ZERO));
    same(&rt, point.send(), None);
}

#[test]
fn tags(rt: HostRuntime) {
    let tag = MsgTag::from_word(0x7f);
    let fields = TagFields {
        untyped: 63,
        typed: 1,
        propagated: false,
        redirected: false,
        crossed: false,
        failed: false,
        label: 0,
    };
    same(&rt, tag.fields(), fields);
    same(&rt, MsgTag::from_fields(fields), Some(tag));
    let full = MsgTag::from_word(0x0002_e07f);
    let received = full.received(4, true).expect(&rt, "t is 4");
    same(&rt, received.to_word(), 0x0002_113f);
    same(&rt, full.received(64, true), None);
}

#[test]
fn tags_with_other_fields(rt: HostRuntime) {
    let tag = MsgTag::EMPTY;
    same(&rt, tag.with_untyped(5), Some(MsgTag::from_word(0x5)));
    same(&rt, tag.with_typed(5), Some(MsgTag::from_word(0x140)));
    same(&rt, tag.with_label(5), Some(MsgTag::from_word(0x5_0000)));
    same(&rt, tag.with_propagated(true).to_word(), 0x1000);
    same(&rt, tag.with_redirected(true).to_word(), 0x2000);
    same(&rt, tag.with_crossed(true).to_word(), 0x4000);
    same(&rt, tag.with_failed(true).to_word(), 0x8000);
}

#[test]
fn controls(rt: HostRuntime) {
    same(&rt, Control::from_word(0xff).to_word(), 0xff);
    same(&rt, MaskedControl::of(true, false).to_word(), 0x2);
    same(&rt, MaskedControl::of(false, true).to_word(), 0x4);
    holds(&rt, ThreadId::global(1, 1) != ThreadId::global(1, 2));
}
