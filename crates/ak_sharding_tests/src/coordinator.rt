use ak_address::{Address, Unique, Uniques, parse_address, parse_unique};
use ak_allocation::Load;
use ak_clock::Version;
use ak_coordinator::{Coordinator, Homing, Order, Placed};
use ak_member::{Members, Standing, Status};
use ak_settings::{Settings, Strategy};
use ak_settled::Settled;
use ak_shard_id::Report;
use std::alloc::Global;
use std::test::Fail;

pub(crate) const UP: Standing = Standing::Member(Status::Up, 1);

const EXITING: Standing = Standing::Member(Status::Exiting, 1);

const CONFIRMED: Standing = Standing::Buried(true);

// What is done with a coordinator. A process is its first letter.
#[derive(Clone, Copy)]
enum Turn {
    GetHome(u32),
    Started(u8, u32, u64),
    Ack(u8, u32, u64),
    Stopped(u8, u32, u64),
    Learn(u8, u32, u64, bool),
}

pub(crate) fn process(alloc: Global, letter: u8) -> Result<Unique, Fail> {
    Ok(parse_unique(alloc, &[letter, b':', b'1', b'#', b'1'])?)
}

fn letter(who: &Unique) -> u8 {
    who.address.host.bytes().first().copied().unwrap_or(0)
}

fn insert(alloc: Global, set: &mut Uniques, letter: u8) -> Result<(), Fail> {
    let who = process(alloc, letter)?;
    Ok(set.insert(alloc, &who)?)
}

fn set_of(alloc: Global, letters: &[u8]) -> Result<Uniques, Fail> {
    let mut set = Uniques::empty(alloc);
    for letter in letters {
        insert(alloc, &mut set, *letter)?;
    }
    Ok(set)
}

fn stand(
    alloc: Global,
    members: &mut Members,
    letter: u8,
    standing: &Standing,
) -> Result<(), Fail> {
    let who = process(alloc, letter)?;
    match standing {
        Standing::Member(status, number) => Ok(members.raise(alloc, &who, *status, *number)?),
        Standing::Buried(confirmed) => Ok(members.bury(alloc, &who, *confirmed)?),
    }
}

fn settled_at(alloc: Global, members: &Members) -> Result<Settled, Fail> {
    let mut settled = Settled::none(alloc);
    let version = Version::empty(alloc);
    if version.covers(settled.version()) {
        settled.note(alloc, &version, members)?;
    }
    Ok(settled)
}

// The settled view in which a, b and so on stand so.
pub(crate) fn settled(alloc: Global, standings: &[Standing]) -> Result<Settled, Fail> {
    let mut members = Members::empty(alloc);
    for (letter, standing) in b"abcd".iter().zip(standings.iter()) {
        stand(alloc, &mut members, *letter, standing)?;
    }
    settled_at(alloc, &members)
}

// One address is listed.
fn listed(alloc: Global) -> Result<Vec<Address>, Fail> {
    let mut listed = Vec::new(alloc);
    listed.push(parse_address(alloc, b"a:1")?)?;
    Ok(listed)
}

pub(crate) fn settings(alloc: Global) -> Result<Settings, Fail> {
    let made = Settings::of_membership(alloc, listed(alloc)?, Strategy::DownAll, 2, 9, 9)?;
    let mut settings = made.ok_or("the settings are out of range")?;
    settings.shards = 10;
    settings.buffer = 2;
    settings.limit = 1;
    Ok(settings)
}

fn push_load(alloc: Global, loads: &mut Vec<Load>, letter: u8, shards: u32) -> Result<(), Fail> {
    let unique = process(alloc, letter)?;
    Ok(loads.push(Load { unique, shards })?)
}

// The loads of a and b, with these shards.
fn loads(alloc: Global, a: u32, b: u32) -> Result<Vec<Load>, Fail> {
    let mut loads = Vec::new(alloc);
    push_load(alloc, &mut loads, b'a', a)?;
    push_load(alloc, &mut loads, b'b', b)?;
    Ok(loads)
}

// The first letter of the home and its number; m where the shard moves, and - where it has no home.
fn home_at(homing: &Homing) -> (u8, u64) {
    match homing {
        Homing::Known(who) => (letter(who), 0),
        Homing::Placed(who, number) => (letter(who), *number),
        Homing::Moving => (b'm', 0),
        Homing::NoRegion => (b'-', 0),
    }
}

fn get_home(alloc: Global, table: &mut Coordinator, shard: u32) -> Result<(u8, u64), Fail> {
    if shard >= table.shards() {
        return Ok((b'-', 0));
    }
    let loads = loads(alloc, 1, 0)?;
    Ok(home_at(&table.on_get_home(alloc, shard, &loads)?))
}

fn placed_at(placed: Option<&Placed>) -> (u8, u64) {
    match placed {
        Some(placed) => (letter(&placed.owner), placed.number),
        None => (b'-', 0),
    }
}

fn stopped(
    alloc: Global,
    table: &mut Coordinator,
    from: &Unique,
    shard: u32,
    number: u64,
) -> Result<(u8, u64), Fail> {
    if shard >= table.shards() {
        return Ok((b'-', 0));
    }
    let loads = loads(alloc, 1, 1)?;
    let placed = table.on_stopped(alloc, from, shard, number, &loads)?;
    Ok(placed_at(placed.as_ref()))
}

fn learn(
    alloc: Global,
    table: &mut Coordinator,
    from: &Unique,
    report: Report,
    asking: bool,
) -> Result<(u8, u64), Fail> {
    if report.shard >= table.shards() {
        return Ok((b'-', 0));
    }
    table.learn(alloc, from, &[report], asking)?;
    Ok(placed_at(table.home(report.shard)))
}

fn ack(table: &mut Coordinator, from: &Unique, shard: u32, number: u64) -> (u8, u64) {
    if shard < table.shards() && table.on_ack(from, shard, number) {
        return (b'l', 0);
    }
    (b'-', 0)
}

fn started(table: &mut Coordinator, from: &Unique, shard: u32, number: u64) -> (u8, u64) {
    if shard < table.shards() {
        table.on_started(from, shard, number);
    }
    (b'-', 0)
}

// Who sends it; a for what nobody sends.
fn sender(turn: Turn) -> u8 {
    match turn {
        Turn::GetHome(_) => b'a',
        Turn::Started(from, _, _) | Turn::Ack(from, _, _) | Turn::Stopped(from, _, _) => from,
        Turn::Learn(from, _, _, _) => from,
    }
}

fn take_from(
    alloc: Global,
    table: &mut Coordinator,
    from: &Unique,
    turn: Turn,
) -> Result<(u8, u64), Fail> {
    match turn {
        Turn::GetHome(shard) => get_home(alloc, table, shard),
        Turn::Stopped(_, shard, number) => stopped(alloc, table, from, shard, number),
        Turn::Learn(_, shard, number, asking) => {
            let report = Report {
                shard,
                number,
                hosted: true,
            };
            learn(alloc, table, from, report, asking)
        }
        Turn::Ack(_, shard, number) => Ok(ack(table, from, shard, number)),
        Turn::Started(_, shard, number) => Ok(started(table, from, shard, number)),
    }
}

fn take(alloc: Global, table: &mut Coordinator, turn: Turn) -> Result<(u8, u64), Fail> {
    let from = process(alloc, sender(turn))?;
    take_from(alloc, table, &from, turn)
}

// An order as a letter, shard, number and the first letter of whom it is for.
fn shown(order: &Order) -> (u8, u32, u64, u8) {
    match order {
        Order::Begin(shard, number, who) => (b'b', *shard, *number, letter(who)),
        Order::HandOff(shard, number, who) => (b'o', *shard, *number, letter(who)),
        Order::Host(shard, number, who) => (b'h', *shard, *number, letter(who)),
    }
}

fn are(orders: &[Order], wanted: &[(u8, u32, u64, u8)]) -> bool {
    for (order, other) in orders.iter().zip(wanted.iter()) {
        if shown(order) != *other {
            return false;
        }
    }
    orders.len() == wanted.len()
}

// What a coordinator is asked with.
#[derive(Drop)]
struct Cluster {
    granted: Uniques,
    settled: Settled,
    settings: Settings,
}

// a, b and c have granted, and a, b and so on stand so.
fn make_cluster(alloc: Global, standings: &[Standing]) -> Result<Cluster, Fail> {
    let granted = set_of(alloc, b"abc")?;
    let settled = settled(alloc, standings)?;
    let settings = settings(alloc)?;
    Ok(Cluster {
        granted,
        settled,
        settings,
    })
}

// An order of a tick, as it is shown.
type Shown = (u8, u32, u64, u8);

fn tick(
    alloc: Global,
    table: &mut Coordinator,
    cluster: &Cluster,
    wanted: &[Shown],
) -> Result<bool, Fail> {
    let Cluster {
        granted,
        settled,
        settings,
    } = cluster;
    let orders = table.on_tick(alloc, granted, settled, settings)?;
    Ok(are(&orders, wanted))
}

fn ticks(
    alloc: Global,
    table: &mut Coordinator,
    standings: &[Standing],
    wanted: &[Shown],
) -> Result<bool, Fail> {
    let cluster = make_cluster(alloc, standings)?;
    tick(alloc, table, &cluster, wanted)
}

// What is done with a coordinator and how it answers, or a tick where a, b and so on stand so, and the orders that it gives.
#[derive(Clone, Copy)]
enum Step {
    Take(Turn, (u8, u64)),
    Tick(&'static [Standing], &'static [Shown]),
}

use Step::{Take, Tick};

fn goes(alloc: Global, table: &mut Coordinator, step: &Step) -> Result<bool, Fail> {
    match step {
        Take(turn, wanted) => Ok(take(alloc, table, *turn)? == *wanted),
        Tick(standings, wanted) => ticks(alloc, table, standings, wanted),
    }
}

// Whether each step goes so, one after another.
fn all_go(alloc: Global, table: &mut Coordinator, steps: &[Step]) -> Result<bool, Fail> {
    'steps: for step in steps {
        if !goes(alloc, table, step)? {
            return Ok(false);
        }
    }
    Ok(true)
}

// The same of a coordinator of ten shards that knows nothing.
fn new_goes(alloc: Global, steps: &[Step]) -> Result<bool, Fail> {
    let mut table = Coordinator::new(alloc, 10)?;
    all_go(alloc, &mut table, steps)
}

// The second one who asks is told the same home, and a stop that nobody waits for changes nothing.
static PLACED_ONCE: [Step; 4] = [
    Take(Turn::GetHome(6), (b'b', 1)),
    Take(Turn::GetHome(6), (b'b', 0)),
    Take(Turn::Stopped(b'b', 6, 1), (b'-', 0)),
    Take(Turn::GetHome(6), (b'b', 0)),
];

#[test]
fn a_free_shard_is_placed_once(rt: HostRuntime) -> Result<(), Fail> {
    assert!(rt; new_goes(rt.alloc(), &PLACED_ONCE)?);
    Ok(())
}

// Reports, and the home that is known after each.
static REPORTS: [Step; 7] = [
    Take(Turn::Learn(b'b', 6, 3, true), (b'b', 3)),
    Take(Turn::Learn(b'c', 6, 2, true), (b'b', 3)),
    Take(Turn::Learn(b'a', 6, 3, true), (b'b', 3)),
    Take(Turn::Learn(b'c', 6, 3, true), (b'c', 3)),
    Take(Turn::Learn(b'd', 6, 4, false), (b'c', 3)),
    Take(Turn::Learn(b'a', 6, 4, true), (b'a', 4)),
    Take(Turn::Learn(b'd', 7, 9, false), (b'd', 9)),
];

#[test]
fn the_greater_report_is_the_home(rt: HostRuntime) -> Result<(), Fail> {
    assert!(rt; new_goes(rt.alloc(), &REPORTS)?);
    Ok(())
}

// Whether a report with the greatest number gives no home, and nobody who asks one.
fn passes_no_bound(alloc: Global, table: &mut Coordinator) -> Result<bool, Fail> {
    let report = Report {
        shard: 3,
        number: 4611686018427387904,
        hosted: false,
    };
    let from = process(alloc, b'a')?;
    let learnt = learn(alloc, table, &from, report, true)? == (b'-', 0);
    Ok(learnt && get_home(alloc, table, 3)? == (b'-', 0))
}

#[test]
fn no_number_passes_the_bound(rt: HostRuntime) -> Result<(), Fail> {
    let mut table = Coordinator::new(rt.alloc(), 10)?;
    assert!(rt; passes_no_bound(rt.alloc(), &mut table)?);
    Ok(())
}

const ALL_UP: &[Standing] = &[UP, UP, UP];

const ONE_LEAVES: &[Standing] = &[UP, EXITING, UP];

// The last of the three that are waited for ends the first stage, and the home that the coordinator waits for stops once.
static HANDED_OFF: [Step; 17] = [
    Take(Turn::GetHome(6), (b'b', 1)),
    Tick(ALL_UP, &[(b'h', 6, 1, b'b')]),
    Take(Turn::Started(b'b', 6, 1), (b'-', 0)),
    Tick(ALL_UP, &[]),
    Tick(
        ONE_LEAVES,
        &[(b'b', 6, 1, b'a'), (b'b', 6, 1, b'b'), (b'b', 6, 1, b'c')],
    ),
    Take(Turn::GetHome(6), (b'm', 0)),
    Take(Turn::Ack(b'a', 6, 1), (b'-', 0)),
    Take(Turn::Ack(b'a', 6, 1), (b'-', 0)),
    Take(Turn::Ack(b'b', 6, 2), (b'-', 0)),
    Take(Turn::Ack(b'b', 6, 1), (b'-', 0)),
    Take(Turn::Ack(b'c', 6, 1), (b'l', 0)),
    Take(Turn::Ack(b'c', 6, 1), (b'-', 0)),
    Tick(ONE_LEAVES, &[(b'o', 6, 1, b'b')]),
    Take(Turn::Stopped(b'a', 6, 1), (b'-', 0)),
    Take(Turn::Stopped(b'b', 6, 2), (b'-', 0)),
    Take(Turn::Stopped(b'b', 6, 1), (b'b', 2)),
    Take(Turn::Stopped(b'b', 6, 1), (b'-', 0)),
];

#[test]
fn a_shard_is_handed_off_in_stages(rt: HostRuntime) -> Result<(), Fail> {
    assert!(rt; new_goes(rt.alloc(), &HANDED_OFF)?);
    Ok(())
}

static WAITED_FOR: [Step; 5] = [
    Take(Turn::Learn(b'b', 6, 1, true), (b'b', 1)),
    Take(Turn::Learn(b'c', 2, 5, true), (b'c', 5)),
    Tick(
        &[UP, EXITING, CONFIRMED],
        &[(b'b', 6, 1, b'a'), (b'b', 6, 1, b'b')],
    ),
    Take(Turn::GetHome(2), (b'b', 6)),
    Tick(&[UP, CONFIRMED, CONFIRMED], &[]),
];

#[test]
fn finished_nodes_are_waited_for_no_more(rt: HostRuntime) -> Result<(), Fail> {
    assert!(rt; new_goes(rt.alloc(), &WAITED_FOR)?);
    Ok(())
}

const BEGUN: &[Shown] = &[(b'b', 3, 1, b'a'), (b'b', 3, 1, b'b'), (b'b', 3, 1, b'c')];

static OVERLOADED: [Step; 4] = [
    Take(Turn::Learn(b'b', 8, 1, true), (b'b', 1)),
    Take(Turn::Learn(b'b', 3, 1, true), (b'b', 1)),
    Tick(&[UP, UP], BEGUN),
    Tick(&[UP, UP], BEGUN),
];

#[test]
fn an_overloaded_node_gives_a_shard_away(rt: HostRuntime) -> Result<(), Fail> {
    assert!(rt; new_goes(rt.alloc(), &OVERLOADED)?);
    Ok(())
}

// b is the home of two shards, a of one, and d, which has not granted, of one.
static FOUR_HOMES: [Step; 4] = [
    Take(Turn::Learn(b'b', 1, 1, true), (b'b', 1)),
    Take(Turn::Learn(b'b', 2, 1, true), (b'b', 1)),
    Take(Turn::Learn(b'a', 3, 1, true), (b'a', 1)),
    Take(Turn::Learn(b'd', 4, 1, true), (b'd', 1)),
];

// The first letter and the shards of a load; - past the last one.
fn load_at(loads: &[Load], index: usize) -> (u8, u32) {
    match loads.get(index) {
        Some(load) => (letter(&load.unique), load.shards),
        None => (b'-', 0),
    }
}

fn first_loads(loads: &[Load]) -> [(u8, u32); 4] {
    [
        load_at(loads, 0),
        load_at(loads, 1),
        load_at(loads, 2),
        load_at(loads, 3),
    ]
}

fn loads_in(
    alloc: Global,
    table: &Coordinator,
    cluster: &Cluster,
    wanted: [(u8, u32); 4],
) -> Result<bool, Fail> {
    let loads = table.loads(alloc, &cluster.granted, &cluster.settled)?;
    Ok(first_loads(&loads) == wanted)
}

// Whether the first loads are these where a, b and c have granted.
fn loads_are(
    alloc: Global,
    table: &Coordinator,
    standings: &[Standing],
    wanted: [(u8, u32); 4],
) -> Result<bool, Fail> {
    let cluster = make_cluster(alloc, standings)?;
    loads_in(alloc, table, &cluster, wanted)
}

const NO_LOAD: (u8, u32) = (b'-', 0);

// Whether the shards of the four homes count, of all that are Up and have granted.
fn counts_shards(alloc: Global, table: &mut Coordinator) -> Result<bool, Fail> {
    let homes = all_go(alloc, table, &FOUR_HOMES)?;
    let all = [(b'a', 1), (b'b', 2), (b'c', 0), NO_LOAD];
    let up = loads_are(alloc, table, &[UP, UP, UP, UP], all)?;
    let others = [(b'b', 2), (b'c', 0), NO_LOAD, NO_LOAD];
    let exiting = loads_are(alloc, table, &[EXITING, UP, UP, UP], others)?;
    Ok(homes && up && exiting && loads_are(alloc, table, &[], [NO_LOAD; 4])?)
}

#[test]
fn a_load_counts_the_shards_of_an_up_member(rt: HostRuntime) -> Result<(), Fail> {
    let mut table = Coordinator::new(rt.alloc(), 10)?;
    assert!(rt; counts_shards(rt.alloc(), &mut table)?);
    Ok(())
}
