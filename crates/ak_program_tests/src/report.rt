use ak_address::{Text, Unique, Uniques, parse_address, parse_unique};
use ak_gossip::{Gossip, Indices, Part, Parts, parts_valid};
use ak_member::{Effect, Effects, Status};
use ak_report::print_actions;
use ak_wire::{Action, Actions, Envelope, Message, SharedEnvelope};
use std::alloc::Global;
use std::test::Fail;

fn process(alloc: Global, text: &str) -> Result<Unique, Fail> {
    Ok(parse_unique(alloc, text.as_bytes()).map_err(|_| "no unique")?)
}

// A packet that asks for membership.
fn asking(alloc: Global, to: &[u8], uid: u64) -> Result<Action, Fail> {
    let envelope = Envelope {
        from: process(alloc, "a:1#1")?,
        to: parse_address(alloc, to).map_err(|_| "no address")?,
        uid,
        message: Message::Join,
    };
    Ok(Action::Send(SharedEnvelope::of(alloc, envelope)?))
}

// One action of each kind, and two packets.
fn some_actions(alloc: Global) -> Result<Actions, Fail> {
    let mut effects = Effects::empty(alloc);
    effects.push(Effect::Joined(process(alloc, "a:1#1")?))?;
    let mut actions = Actions::empty(alloc);
    actions.push(asking(alloc, b"b:1", 0)?)?;
    actions.push(Action::Update(1, effects))?;
    actions.push(asking(alloc, b"b:1", 2)?)?;
    actions.push(Action::View)?;
    actions.push(Action::Settled)?;
    actions.push(Action::Refused(3))?;
    actions.push(Action::Dead)?;
    actions.push(Action::Stopped)?;
    Ok(actions)
}

// A process whose entries count so many, with the number of its state in a datagram and its up number.
type Line = (&'static str, u64, u8, u64);

fn push_line(alloc: Global, line: Line, parts: &mut Parts) -> Result<(), Fail> {
    let (text, count, state, up_number) = line;
    parts.push(Part {
        unique: process(alloc, text)?,
        count,
        state,
        up_number,
        seen: false,
        row_number: 0,
        subjects: Indices::empty(alloc),
    })?;
    Ok(())
}

// What somebody knows to whom these processes are known.
fn knowing(alloc: Global, lines: &[Line]) -> Result<Gossip, Fail> {
    let mut parts = Parts::empty(alloc);
    'lines: for line in lines {
        push_line(alloc, *line, &mut parts)?;
    }
    if parts_valid(parts.as_slice()) {
        return Ok(Gossip::from_parts(alloc, parts.as_slice())?);
    }
    Err("no parts")?
}

#[test]
fn actions_have_an_item_each(rt: HostRuntime) -> Result<(), Fail> {
    let alloc = rt.alloc();
    let gossip = knowing(alloc, &[("a:1#1", 1, 1, 0)])?;
    let actions = some_actions(alloc)?;
    let mut out = b"before\n".to_vec(alloc)?;
    print_actions(alloc, &gossip, 18446744073709551615, &actions, &mut out)?;
    assert_eq!(rt;
        out.as_slice(),
        b"before\n  send 18446744073709551615 join to b:1\n  update 1 joined a:1#1\n  send 18446744073709551616 join to b:1#2\n  view a:1#1=1 | a:1#1 joining | -\n  settled a:1#1=1\n  refused N3\n  dead\n  stopped\n".as_slice()
    );
    Ok(())
}

const RISES: [(&str, Status, u64); 4] = [
    ("a:1#1", Status::Up, 7),
    ("b:1#1", Status::Leaving, 0),
    ("c:1#1", Status::Exiting, 0),
    ("d:1#1", Status::Down, 0),
];

// Adds a rise to each status that a member may rise to.
fn add_rises(alloc: Global, effects: &mut Effects) -> Result<(), Fail> {
    'rises: for (text, status, number) in RISES {
        effects.push(Effect::Rise(process(alloc, text)?, status, number))?;
    }
    Ok(())
}

// Adds a removal, and one that is confirmed.
fn add_removals(alloc: Global, effects: &mut Effects) -> Result<(), Fail> {
    effects.push(Effect::Removed(process(alloc, "e:1#1")?, false))?;
    effects.push(Effect::Removed(process(alloc, "f:1#1")?, true))?;
    Ok(())
}

// What an observer finds, with these processes unreachable.
fn observing(alloc: Global, texts: &[&str]) -> Result<Effect, Fail> {
    let mut subjects = Uniques::empty(alloc);
    'subjects: for text in texts {
        let who = process(alloc, text)?;
        subjects.insert(alloc, &who)?;
    }
    Ok(Effect::Observed(subjects))
}

// Whether an action is printed so, over what is known.
fn prints(alloc: Global, gossip: &Gossip, action: Action, wanted: &[u8]) -> Result<bool, Fail> {
    let mut actions = Actions::empty(alloc);
    actions.push(action)?;
    let mut out = Vec::new(alloc);
    print_actions(alloc, gossip, 1, &actions, &mut out)?;
    Ok(out.as_slice() == wanted)
}

#[test]
fn effects_are_named(rt: HostRuntime) -> Result<(), Fail> {
    let alloc = rt.alloc();
    let nobody = Gossip::empty(alloc);
    let without = Action::Update(2, Effects::empty(alloc));
    assert!(rt; prints(alloc, &nobody, without, b"  update 2 -\n")?);
    let mut effects = Effects::empty(alloc);
    effects.push(Effect::Joined(process(alloc, "g:1#1")?))?;
    add_rises(alloc, &mut effects)?;
    add_removals(alloc, &mut effects)?;
    effects.push(observing(alloc, &["h:1#2", "a:1#1"])?)?;
    effects.push(observing(alloc, &[])?)?;
    let wanted =
        b"  update 3 joined g:1#1, up a:1#1 7, leaving b:1#1, exiting c:1#1, down d:1#1, removed e:1#1, removed-confirmed f:1#1, observed a:1#1 h:1#2, observed none\n";
    assert!(rt; prints(alloc, &nobody, Action::Update(3, effects), wanted)?);
    Ok(())
}

const PROCESSES: [Line; 8] = [
    ("a:1#1", 1, 6, 0),
    ("b:1#1", 9, 1, 0),
    ("c:1#1", 0, 2, 2),
    ("d:1#1", 0, 7, 0),
    ("e:1#1", 0, 3, 3),
    ("f:1#1", 0, 4, 4),
    ("g:1#1", 2, 5, 5),
    ("h:1#1", 0, 5, 0),
];

#[test]
fn members_and_tombstones_are_listed(rt: HostRuntime) -> Result<(), Fail> {
    let alloc = rt.alloc();
    let nobody = Gossip::empty(alloc);
    assert!(rt; prints(alloc, &nobody, Action::View, b"  view - | - | -\n")?);
    let gossip = knowing(alloc, &PROCESSES)?;
    let wanted =
        b"  view a:1#1=1, b:1#1=9, g:1#1=2 | b:1#1 joining, c:1#1 up 2, e:1#1 leaving 3, f:1#1 exiting 4, g:1#1 down 5, h:1#1 down | a:1#1, d:1#1 confirmed\n";
    assert!(rt; prints(alloc, &gossip, Action::View, wanted)?);
    Ok(())
}

// What a node does for the shards and entities.
fn sharding_actions(alloc: Global) -> Result<Actions, Fail> {
    let mut actions = Actions::empty(alloc);
    actions.push(Action::Host(6, 4611686018427387904))?;
    actions.push(Action::Entity(Text::from_bytes(alloc, b"cart")?))?;
    actions.push(Action::Deliver(Text::from_bytes(alloc, b"cart")?, 5))?;
    actions.push(Action::Gone(6))?;
    actions.push(Action::Forward(Text::from_bytes(alloc, b"~!")?, 18446744073709551615))?;
    actions.push(Action::Buffer(Text::from_bytes(alloc, b"cart")?, 0))?;
    actions.push(Action::Drop(Text::from_bytes(alloc, b"cart")?, 7))?;
    Ok(actions)
}

#[test]
fn shards_and_entities_are_printed(rt: HostRuntime) -> Result<(), Fail> {
    let alloc = rt.alloc();
    let nobody = Gossip::empty(alloc);
    let actions = sharding_actions(alloc)?;
    let mut out = Vec::new(alloc);
    print_actions(alloc, &nobody, 1, &actions, &mut out)?;
    let wanted =
        b"  host 6 4611686018427387904\n  entity cart\n  deliver cart 5\n  gone 6\n  forward ~! 18446744073709551615\n  buffer cart 0\n  drop cart 7\n";
    assert!(rt; out.as_slice() == wanted.as_slice());
    Ok(())
}
