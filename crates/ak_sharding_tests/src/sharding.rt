use crate::coordinator::{UP, process, settings, settled};
use ak_address::{Text, Unique};
use ak_field::{EntityId, is_entity};
use ak_member::{Members, Status};
use ak_promise::Ballot;
use ak_settings::Settings;
use ak_settled::Settled;
use ak_shard_id::Report;
use ak_sharding::{Around, Sharding};
use ak_singleton::{Phase, Singleton, TickRule};
use ak_wire::{Action, Actions, Message};
use std::alloc::Global;
use std::test::Fail;

// The shard of `cart` out of ten.
const CART: u32 = 6;

// What else a node a keeps, and another process.
#[derive(Drop)]
struct Scene {
    me: Unique,
    other: Unique,
    settings: Settings,
    settled: Settled,
    members: Members,
    singleton: Singleton,
}

fn around(scene: &Scene) -> Around<'_> {
    Around {
        me: &scene.me,
        settings: &scene.settings,
        settled: &scene.settled,
        members: &scene.members,
        singleton: &scene.singleton,
    }
}

// The messages of the shards that name a ballot.
#[derive(Clone, Copy)]
enum Kind {
    GetHome,
    Home,
    Host,
    Started,
    Begin,
    Ack,
    HandOff,
    Stopped,
}

// What is done. A message comes from b, with the ballot of that term and letter, a shard, and a number or, of a home, b.
#[derive(Clone, Copy)]
enum Turn {
    Offer(&'static str, u64),
    Hear(Kind, u32, u8, u32, u64),
    AskHomes,
    Coordinate,
}

// The ballot of a term from 1 on.
fn ballot(alloc: Global, term: u32, letter: u8) -> Result<Ballot, Fail> {
    let unique = process(alloc, letter)?;
    Ok(Ballot {
        term: u64::from(term.max(1)),
        unique,
    })
}

fn home(alloc: Global, ballot: Ballot, shard: u32) -> Result<Message, Fail> {
    let owner = process(alloc, b'b')?;
    Ok(Message::Home(ballot, shard, owner))
}

fn message(
    alloc: Global,
    kind: Kind,
    ballot: Ballot,
    shard: u32,
    number: u64,
) -> Result<Message, Fail> {
    match kind {
        Kind::GetHome => Ok(Message::GetHome(ballot, shard)),
        Kind::Home => home(alloc, ballot, shard),
        Kind::Host => Ok(Message::HostShard(ballot, shard, number)),
        Kind::Started => Ok(Message::ShardStarted(ballot, shard, number)),
        Kind::Begin => Ok(Message::BeginHandOff(ballot, shard, number)),
        Kind::Ack => Ok(Message::BeginHandOffAck(ballot, shard, number)),
        Kind::HandOff => Ok(Message::HandOff(ballot, shard, number)),
        Kind::Stopped => Ok(Message::ShardStopped(ballot, shard, number)),
    }
}

fn told(
    alloc: Global,
    kind: Kind,
    term: u32,
    letter: u8,
    shard: u32,
    number: u64,
) -> Result<Message, Fail> {
    let ballot = ballot(alloc, term, letter)?;
    message(alloc, kind, ballot, shard, number)
}

fn hear(
    alloc: Global,
    scene: &Scene,
    sharding: &mut Sharding,
    message: Message,
    actions: &mut Actions,
) -> Result<(), Fail> {
    let done = sharding.on_message(alloc, &around(scene), &scene.other, &message, actions);
    drop(message);
    Ok(done?)
}

fn offer(
    alloc: Global,
    scene: &Scene,
    sharding: &mut Sharding,
    entity: &str,
    payload: u64,
    actions: &mut Actions,
) -> Result<(), Fail> {
    let name = Text::from_bytes(alloc, entity.as_bytes())?;
    if !is_entity(name.bytes()) {
        return Err("no name of an entity")?;
    }
    let entity = EntityId::of(name);
    Ok(sharding.offer(alloc, &around(scene), &entity, payload, actions)?)
}

fn take(
    alloc: Global,
    scene: &Scene,
    sharding: &mut Sharding,
    turn: Turn,
    actions: &mut Actions,
) -> Result<(), Fail> {
    match turn {
        Turn::Offer(entity, payload) => offer(alloc, scene, sharding, entity, payload, actions),
        Turn::Hear(kind, term, letter, shard, number) => {
            let message = told(alloc, kind, term, letter, shard, number)?;
            hear(alloc, scene, sharding, message, actions)
        }
        Turn::AskHomes => Ok(sharding.ask_homes(alloc, &around(scene), actions)?),
        Turn::Coordinate => Ok(sharding.coordinate(alloc, &around(scene), actions)?),
    }
}

// A letter for a message that is sent.
fn sent(message: &Message) -> u8 {
    match message {
        Message::GetHome(_, _) => b'G',
        Message::Home(_, _, _) => b'H',
        Message::HostShard(_, _, _) => b'O',
        Message::ShardStarted(_, _, _) => b'S',
        Message::BeginHandOff(_, _, _) => b'B',
        Message::BeginHandOffAck(_, _, _) => b'A',
        Message::HandOff(_, _, _) => b'L',
        Message::ShardStopped(_, _, _) => b'T',
        Message::Forward(_, _) => b'F',
        _ => b'?',
    }
}

// And one for any other action.
fn letter(action: &Action) -> u8 {
    match action {
        Action::Send(envelope) => sent(&envelope.get().message),
        Action::Host(_, _) => b'h',
        Action::Gone(_) => b'g',
        Action::Entity(_) => b'e',
        Action::Deliver(_, _) => b'd',
        Action::Forward(_, _) => b'f',
        Action::Buffer(_, _) => b'b',
        Action::Drop(_, _) => b'x',
        _ => b'?',
    }
}

fn are(actions: &Actions, wanted: &[u8]) -> bool {
    if actions.len() != wanted.len() {
        return false;
    }
    'actions: for (action, &wanted) in actions.as_slice().iter().zip(wanted.iter()) {
        if letter(action) != wanted {
            return false;
        }
    }
    true
}

fn goes(
    alloc: Global,
    scene: &Scene,
    sharding: &mut Sharding,
    turn: Turn,
    wanted: &[u8],
) -> Result<bool, Fail> {
    let mut actions = Actions::empty(alloc);
    take(alloc, scene, sharding, turn, &mut actions)?;
    Ok(are(&actions, wanted))
}

// Whether each turn is done so, one after another.
fn all_go(
    alloc: Global,
    scene: &Scene,
    sharding: &mut Sharding,
    turns: &[(Turn, &'static [u8])],
) -> Result<bool, Fail> {
    'turns: for (turn, wanted) in turns {
        if !goes(alloc, scene, sharding, *turn, wanted)? {
            return Ok(false);
        }
    }
    Ok(true)
}

fn members(alloc: Global) -> Result<Members, Fail> {
    let mut members = Members::empty(alloc);
    let me = process(alloc, b'a')?;
    members.raise(alloc, &me, Status::Up, 1)?;
    Ok(members)
}

// A node a that knows itself alone, is settled so, and has promised nothing.
fn alone(alloc: Global) -> Result<Scene, Fail> {
    let me = process(alloc, b'a')?;
    let other = process(alloc, b'b')?;
    scene_of(alloc, me, other)
}

fn scene_of(alloc: Global, me: Unique, other: Unique) -> Result<Scene, Fail> {
    let settings = settings(alloc)?;
    let settled = settled(alloc, &[UP])?;
    let members = members(alloc)?;
    Ok(Scene {
        me,
        other,
        settings,
        settled,
        members,
        singleton: Singleton::new(alloc),
    })
}

fn log(alloc: Global, sharding: &Sharding, wanted: Option<&[u64]>) -> Result<bool, Fail> {
    let cart = Text::from_bytes(alloc, b"cart")?;
    Ok(sharding.log(&cart) == wanted)
}

// It promised the first ballot of b, which hosts nothing, and so orders of b bind it.
static REGION: [(Turn, &[u8]); 8] = [
    (Turn::Offer("cart", 5), b"b"),
    (Turn::AskHomes, b"G"),
    (Turn::Hear(Kind::Host, 2, b'b', CART, 1), b""),
    (Turn::Hear(Kind::Host, 1, b'b', 10, 1), b""),
    (Turn::Hear(Kind::Host, 1, b'b', CART, 1), b"hedS"),
    (Turn::Hear(Kind::Host, 1, b'b', CART, 1), b"S"),
    (Turn::Offer("cart", 6), b"d"),
    (Turn::AskHomes, b""),
];

static HAND_OFF: [(Turn, &[u8]); 7] = [
    (Turn::Hear(Kind::Begin, 1, b'b', CART, 1), b"A"),
    (Turn::Offer("cart", 7), b"b"),
    (Turn::Offer("cart", 8), b"b"),
    (Turn::Offer("cart", 9), b"x"),
    (Turn::Hear(Kind::HandOff, 1, b'b', CART, 1), b"gT"),
    (Turn::Hear(Kind::Host, 1, b'b', CART, 1), b""),
    (Turn::Hear(Kind::Home, 1, b'b', CART, 0), b"fFfF"),
];

// The node hosts the shard, and hands it off.
fn obeys(alloc: Global, scene: &Scene, sharding: &mut Sharding) -> Result<bool, Fail> {
    if !all_go(alloc, scene, sharding, &REGION)? || !sharding.hosts_any() {
        return Ok(false);
    }
    if sharding.hosts(CART) != Some(1) || !log(alloc, sharding, Some(&[5, 6]))? {
        return Ok(false);
    }
    if !all_go(alloc, scene, sharding, &HAND_OFF)? || sharding.hosts(CART).is_some() {
        return Ok(false);
    }
    Ok(log(alloc, sharding, None)? && sharding.reports(alloc)?.len() == 1)
}

// And forgets the home, and then everything.
fn forgets(alloc: Global, scene: &Scene, sharding: &mut Sharding) -> Result<bool, Fail> {
    sharding.forget_strangers(&around(scene));
    if !goes(alloc, scene, sharding, Turn::Offer("cart", 1), b"b")? {
        return Ok(false);
    }
    sharding.forget(alloc);
    goes(alloc, scene, sharding, Turn::AskHomes, b"")
}

fn promise(alloc: Global, scene: &mut Scene) -> Result<(), Fail> {
    let promised = ballot(alloc, 1, b'b')?;
    let _answer = scene.singleton.on_ask(promised, &scene.settled, 2);
    Ok(())
}

fn region_goes(alloc: Global, scene: &Scene) -> Result<bool, Fail> {
    let mut sharding = Sharding::new(alloc, &scene.settings)?;
    Ok(obeys(alloc, scene, &mut sharding)? && forgets(alloc, scene, &mut sharding)?)
}

#[test]
fn orders_are_obeyed(rt: HostRuntime) -> Result<(), Fail> {
    let mut scene = alone(rt.alloc())?;
    promise(rt.alloc(), &mut scene)?;
    assert!(rt; region_goes(rt.alloc(), &scene)?);
    Ok(())
}

// The node is active with its first ballot, and alone.
static COORDINATOR: [(Turn, &[u8]); 7] = [
    (Turn::Hear(Kind::GetHome, 1, b'b', CART, 0), b""),
    (Turn::Hear(Kind::GetHome, 1, b'a', 10, 0), b""),
    (Turn::Hear(Kind::GetHome, 1, b'a', CART, 0), b"OH"),
    (Turn::Hear(Kind::Started, 1, b'a', CART, 1), b""),
    (Turn::Coordinate, b"O"),
    (Turn::Hear(Kind::Stopped, 1, b'a', CART, 1), b""),
    (Turn::Hear(Kind::Ack, 1, b'a', CART, 1), b""),
];

fn activate(alloc: Global, scene: &mut Scene) -> Result<bool, Fail> {
    let (me, settled) = (&scene.me, &scene.settled);
    scene.singleton.on_tick(alloc, me, settled, Status::Up, 2)?;
    Ok(scene.singleton.try_activate(alloc, me, settled, 2)?)
}

fn learn(alloc: Global, scene: &Scene, sharding: &mut Sharding, shard: u32) -> Result<bool, Fail> {
    let from = process(alloc, b'b')?;
    let told = [Report {
        shard,
        number: 3,
        hosted: true,
    }];
    if !sharding.has_shards(&told) {
        return Ok(false);
    }
    sharding.learn_if(alloc, true, &around(scene), &from, &told)?;
    Ok(true)
}

const ASKED: Turn = Turn::Hear(Kind::GetHome, 1, b'a', 7, 0);

fn places(alloc: Global, scene: &Scene, sharding: &mut Sharding) -> Result<bool, Fail> {
    sharding.follow_tick(alloc, TickRule::Opens, &scene.me)?;
    if !all_go(alloc, scene, sharding, &COORDINATOR)? || learn(alloc, scene, sharding, 10)? {
        return Ok(false);
    }
    Ok(learn(alloc, scene, sharding, 7)? && goes(alloc, scene, sharding, ASKED, b"H")?)
}

fn begins_anew(alloc: Global, scene: &Scene, sharding: &mut Sharding) -> Result<bool, Fail> {
    sharding.begin_if(alloc, true, &scene.me)?;
    if !goes(alloc, scene, sharding, ASKED, b"OH")? {
        return Ok(false);
    }
    sharding.end_phase(Phase::Active);
    goes(alloc, scene, sharding, ASKED, b"")
}

fn coordinator_goes(alloc: Global, scene: &Scene) -> Result<bool, Fail> {
    let mut sharding = Sharding::new(alloc, &scene.settings)?;
    Ok(places(alloc, scene, &mut sharding)? && begins_anew(alloc, scene, &mut sharding)?)
}

#[test]
fn shards_are_placed(rt: HostRuntime) -> Result<(), Fail> {
    let mut scene = alone(rt.alloc())?;
    assert!(rt; activate(rt.alloc(), &mut scene)?);
    assert!(rt; coordinator_goes(rt.alloc(), &scene)?);
    Ok(())
}
