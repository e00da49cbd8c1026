ghost use Rattle.std.specs.Prelude.{◌≡◌};

use super::{Full, Heap, Job, Kind, Ref, Reserve, Rom, Room, Slot, SlotAt, Value};
use std::alloc::AllocError;

const AMPLE: Room = Room {
    slots: 64,
    units: 64,
    names: 8,
};

const UNDEFINED: [Value; 3] = [Value::Undefined, Value::Undefined, Value::Undefined];

fn data(key: u16) -> Slot {
    Slot {
        next: 0,
        key,
        kind: 16,
        flags: 7,
        value: 0,
        last: 0,
    }
}

#[test]
fn room_of_one_slot(rt: HostRuntime) -> Result<(), AllocError> {
    let one = Room {
        slots: 1,
        units: 0,
        names: 0,
    };
    let mut heap = Heap::start(Rom::none(), Reserve::of(rt.alloc(), one, 0, 0)?);
    let first = heap.instance(Kind::Object, Ref(0), 0);
    assert!(rt; first.is_ok());
    let second = heap.instance(Kind::Object, Ref(0), 0);
    assert!(rt; second == Err(Full::Slots));
    assert!(rt; heap.used().slots == 1);
    Ok(())
}

#[test]
fn two_units_left(rt: HostRuntime) -> Result<(), AllocError> {
    let two = Room {
        slots: 0,
        units: 2,
        names: 0,
    };
    let mut heap = Heap::start(Rom::none(), Reserve::of(rt.alloc(), two, 0, 0)?);
    let refused = heap.open_text(3);
    assert!(rt; refused == Err(Full::Units));
    let opened = heap.open_text(2);
    assert!(rt; opened.is_ok());
    Ok(())
}

#[test]
fn slots_in_a_chain(rt: HostRuntime) -> Result<(), AllocError> {
    let mut heap = Heap::start(Rom::none(), Reserve::of(rt.alloc(), AMPLE, 0, 0)?);
    let Ok(object) = heap.instance(Kind::Object, Ref(0), 0) else {
        panic!(rt; "no room for the object");
    };
    let head = heap.first(object);
    let added = heap.add(object, head, data(1).with(Value::Number(-5)));
    assert!(rt; added == Ok(SlotAt(2)));
    assert!(rt; heap.copy_cost(object) == 0);
    let head = heap.first(object);
    let Some(at) = heap.next(head) else {
        panic!(rt; "nothing behind the head");
    };
    let old = heap.slot(at);
    assert!(rt; old.kind == 16);
    assert!(rt; old.flags < 64);
    assert!(rt; old.value() == Value::Number(-5));
    heap.put(at, data(1).with(Value::Bool(true)));
    assert!(rt; heap.used().slots == 2);
    assert!(rt; heap.rom_slots() == 0);
    assert!(rt; heap.spare().slots == 62);
    assert!(rt; data(1).with(Value::Number(-5)).value() == Value::Number(-5));
    Ok(())
}

#[test]
fn names_are_one_each(rt: HostRuntime) -> Result<(), AllocError> {
    let mut heap = Heap::start(Rom::none(), Reserve::of(rt.alloc(), AMPLE, 0, 0)?);
    assert!(rt; heap.open_text(1).is_ok());
    heap.push_unit(97);
    let text = heap.close_text();
    assert!(rt; heap.length(text) == 1);
    assert!(rt; heap.find_name(text) == None);
    let first = heap.name(text);
    assert!(rt; first == Ok(0));
    assert!(rt; heap.names() == 1);
    assert!(rt; heap.unit(text, 0) == 97);
    assert!(rt; heap.open_text(1).is_ok());
    heap.push_text(text, 0, 1);
    let copy = heap.close_text();
    assert!(rt; heap.find_name(copy) == Some(0));
    Ok(())
}

#[test]
#[tactic(auto, using(crate::proofs::Uses::holds_spare))]
fn first_in_first_out(rt: HostRuntime) -> Result<(), AllocError> {
    let mut heap = Heap::start(Rom::none(), Reserve::of(rt.alloc(), AMPLE, 0, 0)?);
    for kind in 0..2u8 {
        let queued = heap.queue(Job {
            kind,
            values: UNDEFINED,
        });
        assert!(rt; queued.is_ok());
    }
    assert!(rt; heap.jobs() == 2);
    let first = heap.next_job();
    assert!(rt;
        first
            == Some(Job {
                kind: 0,
                values: UNDEFINED
            })
    );
    assert!(rt; heap.used().slots == 8);
    assert!(rt; heap.job(0).kind == 1);
    let second = heap.next_job();
    assert!(rt; second.is_some());
    assert!(rt; heap.next_job().is_none());
    assert!(rt; heap.fits(AMPLE) == Err(Full::Slots));
    let spare = heap.spare();
    heap.restart(spare);
    assert!(rt; heap.used().slots == 0);
    Ok(())
}

#[test]
fn places_of_the_realm(rt: HostRuntime) -> Result<(), AllocError> {
    let heap = Heap::start(Rom::none(), Reserve::of(rt.alloc(), AMPLE, 0, 0)?);
    assert!(rt; heap.realm(1) == Ref(2));
    assert!(rt; heap.realm(13) == Ref(16));
    assert!(rt; heap.realm(103) == Ref(195));
    Ok(())
}

#[test]
fn cut_in_a_chain(rt: HostRuntime) -> Result<(), AllocError> {
    let mut heap = Heap::start(Rom::none(), Reserve::of(rt.alloc(), AMPLE, 0, 0)?);
    let Ok(array) = heap.instance(Kind::Array, Ref(0), 1) else {
        panic!(rt; "no room for the array");
    };
    let head = heap.first(array);
    let Some(_behind) = heap.next(head) else {
        panic!(rt; "nothing behind the head");
    };
    heap.cut(array, head);
    assert!(rt; heap.used().slots == 2);
    Ok(())
}
