ghost use Rattle.std.specs.Prelude.{◌<◌, OnOk};

use ak_address::{Address, Text, Unique, parse_address, parse_unique};
use ak_field::{EntityId, is_entity};
use ak_gossip::{Gossip, Indices, Part, Parts, parts_valid};
use ak_member::{Effect, Effects, Status};
use ak_node::{Node, NodeEvent};
use ak_promise::Ballot;
use ak_settings::{Settings, Strategy};
use ak_wire::{Action, Actions, Envelope, Message, valid};
use std::alloc::{AllocError, Global};
use std::test::Fail;

// Port 1 of each of these hosts is listed.
const HOSTS: &[u8] = b"abcd";

fn listed(alloc: Global) -> Result<Vec<Address>, Fail> {
    let mut listed = Vec::new(alloc);
    'hosts: for host in HOSTS {
        listed.push(parse_address(alloc, &[*host, b':', b'1'])?)?;
    }
    Ok(listed)
}

fn settings(alloc: Global) -> Result<Settings, Fail> {
    let made = Settings::of_membership(alloc, listed(alloc)?, Strategy::StaticQuorum(3), 2, 9, 9)?;
    let mut settings = made.ok_or("the settings are out of range")?;
    settings.shards = 10;
    settings.buffer = 2;
    settings.limit = 1;
    Ok(settings)
}

// The process with uid 1 at port 1 of the host of this letter.
fn process(alloc: Global, letter: u8) -> Result<Unique, Fail> {
    Ok(parse_unique(alloc, &[letter, b':', b'1', b'#', b'1'])?)
}

// Another process at the same address, with this uid; 0 counts as 1.
fn beside(alloc: Global, who: &Unique, uid: u32) -> Result<Unique, AllocError> {
    let address = who.address.copy(alloc)?;
    let uid = u64::from(uid.max(1));
    Ok(Unique { address, uid })
}

// A Joining member that has not seen the gossip, of which so many updates are counted.
fn push_part(
    alloc: Global,
    unique: Unique,
    count: u64,
    parts: &mut Parts,
) -> Result<(), AllocError> {
    parts.push(Part {
        unique,
        count,
        state: 1,
        up_number: 0,
        seen: false,
        row_number: 0,
        subjects: Indices::new(Vec::new(alloc)),
    })
}

fn gossip_of(alloc: Global, parts: &Parts) -> Result<Gossip, Fail> {
    if parts_valid(parts.as_slice()) {
        return Ok(Gossip::from_parts(alloc, parts.as_slice())?);
    }
    Err("the parts are not valid")?
}

// A gossip of the processes of these letters, each with its count.
fn gossip(alloc: Global, lines: &[(u8, u64)]) -> Result<Gossip, Fail> {
    let mut parts = Parts::empty(alloc);
    'lines: for line in lines {
        push_part(alloc, process(alloc, line.0)?, line.1, &mut parts)?;
    }
    gossip_of(alloc, &parts)
}

// A gossip of a, of which no update is counted, and of so many others, all at m, of which one is counted each.
fn crowd(alloc: Global, others: u32) -> Result<Gossip, Fail> {
    let mut parts = Parts::empty(alloc);
    push_part(alloc, process(alloc, b'a')?, 0, &mut parts)?;
    let first = process(alloc, b'm')?;
    'others: for more in 0..others {
        push_part(
            alloc,
            beside(alloc, &first, more.saturating_add(1))?,
            1,
            &mut parts,
        )?;
    }
    gossip_of(alloc, &parts)
}

// The node of this letter, which knows nothing.
fn start(alloc: Global, letter: u8) -> Result<Node, Fail> {
    Ok(Node::start(alloc, process(alloc, letter)?, &settings(alloc)?)?)
}

// A test makes few steps.
fn few_steps(node: &Node) -> Result<(), Fail>
    ensures { OnOk result (node.now.state.steps < 1000) }
{
    if node.steps() >= 1000 {
        return Err("too many steps")?;
    }
    Ok(())
}

// The process of this letter, which sends, and the address of the node, which receives.
fn ways(alloc: Global, node: &Node, from: u8) -> Result<(Unique, Address), Fail> {
    let from = process(alloc, from)?;
    let to = node.me().address.copy(alloc)?;
    Ok((from, to))
}

// For whichever process is at the address, where the message may be, and else for the one with uid 1.
fn uid_for(message: &Message) -> u64 {
    match message {
        Message::Join => 0,
        Message::Leave(_) => 0,
        Message::Down(_) => 0,
        _ => 1,
    }
}

// What a message comes in.
fn packet(ways: (Unique, Address), message: Message) -> Envelope {
    Envelope {
        from: ways.0,
        to: ways.1,
        uid: uid_for(&message),
        message,
    }
}

// What the node does at a packet, which has a spelling.
fn receive(alloc: Global, node: &mut Node, packet: &Envelope) -> Result<Actions, Fail>
    requires { node.old.state.steps < 1000 }
{
    if valid(packet) {
        return Ok(node.receive(alloc, packet)?);
    }
    Err("the packet is not valid")?
}

// What it does where the process of this letter asks to join.
fn asked(alloc: Global, node: &mut Node, from: u8) -> Result<Actions, Fail> {
    few_steps(node)?;
    let ways = ways(alloc, node, from)?;
    receive(alloc, node, &packet(ways, Message::Join))
}

// What it does at a gossip of these lines that the process of this letter sends.
fn told(alloc: Global, node: &mut Node, from: u8, lines: &[(u8, u64)]) -> Result<Actions, Fail> {
    few_steps(node)?;
    let ways = ways(alloc, node, from)?;
    let gossip = gossip(alloc, lines)?;
    receive(alloc, node, &packet(ways, Message::Gossip(gossip)))
}

// What it does at the gossip of a crowd that c sends.
fn told_of_crowd(alloc: Global, node: &mut Node, others: u32) -> Result<Actions, Fail> {
    few_steps(node)?;
    let ways = ways(alloc, node, b'c')?;
    let gossip = crowd(alloc, others)?;
    receive(alloc, node, &packet(ways, Message::Gossip(gossip)))
}

fn is_refusal(actions: &Actions, code: u8) -> bool {
    match actions.as_slice() {
        [Action::Refused(why)] => *why == code,
        _ => false,
    }
}

fn is_send(action: Option<&Action>) -> bool {
    matches!(action, Some(Action::Send(_)))
}

fn is_view(action: Option<&Action>) -> bool {
    matches!(action, Some(Action::View))
}

// The first update of a node.
fn is_first(action: Option<&Action>) -> bool {
    match action {
        Some(Action::Update(number, _)) => *number == 1,
        _ => false,
    }
}

fn is_answer_with_view(actions: &Actions) -> bool {
    actions.len() == 2 && is_send(actions.at(0)) && is_view(actions.at(1))
}

fn is_founding(actions: &Actions) -> bool {
    actions.len() == 2 && is_first(actions.at(0)) && is_view(actions.at(1))
}

fn is_admission(actions: &Actions) -> bool {
    let starts = actions.len() == 3 && is_first(actions.at(0));
    starts && is_send(actions.at(1)) && is_view(actions.at(2))
}

// From one process to exactly the other.
fn goes(envelope: &Envelope, from: &Unique, to: &Unique) -> bool {
    let sent_by = envelope.from.compare(from).is_eq();
    let sent_to = envelope.to.compare(&to.address).is_eq();
    sent_by && sent_to && envelope.uid == to.uid
}

// A gossip in which nobody is known.
fn is_gossip_of_nobody(message: &Message) -> bool {
    match message {
        Message::Gossip(gossip) => gossip.uniques() == 0 && gossip.version().len() == 0,
        _ => false,
    }
}

fn answers_with_nobody(actions: &Actions, from: &Unique, to: &Unique) -> bool {
    match actions.as_slice() {
        [Action::Send(envelope)] => {
            let envelope = envelope.get();
            goes(envelope, from, to) && is_gossip_of_nobody(&envelope.message)
        }
        _ => false,
    }
}

// The whole of what is done is one gossip of nobody, from one process to the other.
fn is_answer_with_nobody(alloc: Global, actions: &Actions, from: u8, to: u8) -> Result<bool, Fail> {
    let from = process(alloc, from)?;
    let to = process(alloc, to)?;
    Ok(answers_with_nobody(actions, &from, &to))
}

// b answers so where a tells it of b alone, of which no update is counted.
fn answers_with_what_it_knows(alloc: Global, node: &mut Node) -> Result<bool, Fail> {
    let actions = told(alloc, node, b'a', &[(b'b', 0)])?;
    is_answer_with_nobody(alloc, &actions, b'b', b'a')
}

// The node founds the cluster: its own count is 1.
fn found(alloc: Global, node: &mut Node) -> Result<(), Fail> {
    few_steps(node)?;
    if is_founding(&node.step(alloc, NodeEvent::Found)?) {
        return Ok(());
    }
    Err("it does not found")?
}

fn refuses_the_unlisted(alloc: Global, node: &mut Node) -> Result<bool, Fail> {
    found(alloc, node)?;
    Ok(is_refusal(&asked(alloc, node, b'z')?, 4))
}

fn refuses_foreign_counts(alloc: Global, node: &mut Node) -> Result<bool, Fail> {
    found(alloc, node)?;
    let lines = [(b'a', 2), (b'b', 0)];
    Ok(is_refusal(&told(alloc, node, b'b', &lines)?, 5))
}

// The node a takes in the gossip of a crowd with so many others, and then b asks to join.
fn asked_in_crowd(alloc: Global, node: &mut Node, others: u32) -> Result<Actions, Fail> {
    if is_answer_with_view(&told_of_crowd(alloc, node, others)?) {
        return asked(alloc, node, b'b');
    }
    Err("it does not take the gossip in")?
}

fn refuses_another(alloc: Global, node: &mut Node, others: u32) -> Result<bool, Fail> {
    Ok(is_refusal(&asked_in_crowd(alloc, node, others)?, 6))
}

fn admits_another(alloc: Global, node: &mut Node, others: u32) -> Result<bool, Fail> {
    Ok(is_admission(&asked_in_crowd(alloc, node, others)?))
}

// A gossip of a and b, of which one update of b is counted.
const TWO: [(u8, u64); 2] = [(b'a', 0), (b'b', 1)];

// The node a comes to know itself and b, and then is told of a crowd in which b is not.
fn told_after_two(alloc: Global, node: &mut Node, others: u32) -> Result<Actions, Fail> {
    if is_answer_with_view(&told(alloc, node, b'b', &TWO)?) {
        return told_of_crowd(alloc, node, others);
    }
    Err("it does not take the gossip in")?
}

fn refuses_a_crowd(alloc: Global, node: &mut Node, others: u32) -> Result<bool, Fail> {
    Ok(is_refusal(&told_after_two(alloc, node, others)?, 6))
}

fn takes_a_crowd_in(alloc: Global, node: &mut Node, others: u32) -> Result<bool, Fail> {
    Ok(is_answer_with_view(&told_after_two(alloc, node, others)?))
}

// A gossip of a and b, both Up, of which one update of b is counted; neither has seen it.
fn gossip_of_two_up(alloc: Global) -> Result<Gossip, Fail> {
    let mut parts = Parts::empty(alloc);
    push_up(alloc, process(alloc, b'a')?, 0, 1, &mut parts)?;
    push_up(alloc, process(alloc, b'b')?, 1, 2, &mut parts)?;
    gossip_of(alloc, &parts)
}

// An Up member with this number that has not seen the gossip, of which so many updates are counted.
fn push_up(
    alloc: Global,
    unique: Unique,
    count: u64,
    up_number: u64,
    parts: &mut Parts,
) -> Result<(), AllocError> {
    parts.push(Part {
        unique,
        count,
        state: 2,
        up_number,
        seen: false,
        row_number: 0,
        subjects: Indices::new(Vec::new(alloc)),
    })
}

// What the node does at the gossip of two that b sends.
fn told_of_two_up(alloc: Global, node: &mut Node) -> Result<Actions, Fail> {
    few_steps(node)?;
    let ways = ways(alloc, node, b'b')?;
    let gossip = gossip_of_two_up(alloc)?;
    receive(alloc, node, &packet(ways, Message::Gossip(gossip)))
}

// The node a comes to know itself and b, both Up.
fn take_two_up_in(alloc: Global, node: &mut Node) -> Result<(), Fail> {
    if is_answer_with_view(&told_of_two_up(alloc, node)?) {
        return Ok(());
    }
    Err("it does not take the gossip in")?
}

// What the node does where a packet of z, who is no member and at no listed address, asks that the process of this letter leaves.
fn asked_to_leave(alloc: Global, node: &mut Node, who: u8) -> Result<Actions, Fail> {
    few_steps(node)?;
    let ways = ways(alloc, node, b'z')?;
    let who = process(alloc, who)?;
    receive(alloc, node, &packet(ways, Message::Leave(who)))
}

// What it does where a packet of z asks to down the process of this letter.
fn asked_to_down(alloc: Global, node: &mut Node, who: u8) -> Result<Actions, Fail> {
    few_steps(node)?;
    let ways = ways(alloc, node, b'z')?;
    let who = process(alloc, who)?;
    receive(alloc, node, &packet(ways, Message::Down(who)))
}

// The effects are that this process rises to this status, with no number.
fn is_rise(effects: &Effects, who: &Unique, to: Status) -> bool {
    match effects.as_slice() {
        [Effect::Rise(other, status, up_number)] => {
            other.compare(who).is_eq() && *status == to && *up_number == 0
        }
        _ => false,
    }
}

// The whole of what is done is one update with this number, in which this process rises to this status.
fn is_raise(actions: &Actions, number: u64, who: &Unique, to: Status) -> bool {
    match actions.as_slice() {
        [Action::Update(own, effects), next] => {
            *own == number && is_rise(effects, who, to) && is_view(Some(next))
        }
        _ => false,
    }
}

fn raises_as_packets_ask(alloc: Global, node: &mut Node) -> Result<bool, Fail> {
    take_two_up_in(alloc, node)?;
    let other = process(alloc, b'b')?;
    let left = is_raise(
        &asked_to_leave(alloc, node, b'b')?,
        1,
        &other,
        Status::Leaving,
    );
    let downed = is_raise(&asked_to_down(alloc, node, b'b')?, 2, &other, Status::Down);
    Ok(left && downed)
}

fn refuses_as_a_founder(alloc: Global, node: &mut Node) -> Result<bool, Fail> {
    found(alloc, node)?;
    let itself = is_refusal(&asked_to_leave(alloc, node, b'a')?, 1);
    let unknown = is_refusal(&asked_to_leave(alloc, node, b'b')?, 2);
    let downed = is_refusal(&asked_to_down(alloc, node, b'b')?, 2);
    Ok(itself && unknown && downed)
}

fn refuses_as_no_member(alloc: Global, node: &mut Node) -> Result<bool, Fail> {
    let left = is_refusal(&asked_to_leave(alloc, node, b'a')?, 3);
    let downed = is_refusal(&asked_to_down(alloc, node, b'a')?, 3);
    Ok(left && downed)
}

// What it answered is taken back; then it answers the same, and nothing with it.
fn answers_alike_after_taking_back(alloc: Global, node: &mut Node) -> Result<bool, Fail> {
    let refusal = asked(alloc, node, b'z')?;
    let before = is_refusal(&refusal, 3);
    node.take_back(refusal);
    let steps = node.steps();
    let after = is_refusal(&asked(alloc, node, b'z')?, 3);
    Ok(before && after && steps == 1)
}

// What the node does at a message for an entity, which b forwards.
fn forwarded(alloc: Global, node: &mut Node) -> Result<Actions, Fail> {
    few_steps(node)?;
    let ways = ways(alloc, node, b'b')?;
    let entity = Text::from_bytes(alloc, b"e")?;
    receive(alloc, node, &packet(ways, Message::Forward(entity, 5)))
}

// What the node does at a payload that is offered there for the same entity.
fn offered(alloc: Global, node: &mut Node) -> Result<Actions, Fail> {
    few_steps(node)?;
    let name = Text::from_bytes(alloc, b"e")?;
    if is_entity(name.bytes()) && node.entity_ok(name.bytes()) {
        let event = NodeEvent::Offer(EntityId::of(name), 5);
        return Ok(node.step(alloc, event)?);
    }
    Err("no entity is called so")?
}

// What the node does where b, whose ballot it did not promise, tells it to host a shard.
fn told_to_host(alloc: Global, node: &mut Node) -> Result<Actions, Fail> {
    few_steps(node)?;
    let ways = ways(alloc, node, b'b')?;
    let unique = process(alloc, b'b')?;
    let ballot = Ballot { term: 1, unique };
    receive(alloc, node, &packet(ways, Message::HostShard(ballot, 3, 1)))
}

// The whole of what is done is that the payload waits.
fn is_buffered(actions: &Actions) -> bool {
    match actions.as_slice() {
        [Action::Buffer(entity, payload)] => entity.bytes() == b"e".as_slice() && *payload == 5,
        _ => false,
    }
}

// The whole of what is done is that the payload is lost.
fn is_dropped(actions: &Actions) -> bool {
    match actions.as_slice() {
        [Action::Drop(entity, payload)] => entity.bytes() == b"e".as_slice() && *payload == 5,
        _ => false,
    }
}

// It hosts nothing, is no singleton, and no entity is active there.
fn has_no_shard(alloc: Global, node: &Node) -> Result<bool, Fail> {
    let entity = Text::from_bytes(alloc, b"e")?;
    Ok(node.hosts(3).is_none() && node.active().is_none() && node.log(&entity).is_none())
}

// Before it is a member it takes what is offered, but hears no packet of the shards. Two messages wait at most.
fn hears_of_shards_as_a_member(alloc: Global, node: &mut Node) -> Result<bool, Fail> {
    let unheard = forwarded(alloc, node)?.len() == 0;
    let waits = is_buffered(&offered(alloc, node)?);
    found(alloc, node)?;
    let waits_too = is_buffered(&forwarded(alloc, node)?);
    let lost = is_dropped(&forwarded(alloc, node)?);
    let not_bound = told_to_host(alloc, node)?.len() == 0;
    Ok(unheard && waits && waits_too && lost && not_bound && has_no_shard(alloc, node)?)
}

// What a node goes through that has just started.
#[derive(Clone, Copy)]
enum Story {
    AnswersWithWhatItKnows,
    RefusesTheUnlisted,
    RefusesForeignCounts,
    RefusesAnother(u32),
    AdmitsAnother(u32),
    RefusesACrowd(u32),
    TakesACrowdIn(u32),
    RaisesAsPacketsAsk,
    RefusesAsAFounder,
    RefusesAsNoMember,
    HearsOfShardsAsAMember,
    AnswersAlikeAfterTakingBack,
}

fn goes_so(alloc: Global, node: &mut Node, story: Story) -> Result<bool, Fail> {
    match story {
        Story::AnswersWithWhatItKnows => answers_with_what_it_knows(alloc, node),
        Story::RefusesTheUnlisted => refuses_the_unlisted(alloc, node),
        Story::RefusesForeignCounts => refuses_foreign_counts(alloc, node),
        Story::RefusesAnother(others) => refuses_another(alloc, node, others),
        Story::AdmitsAnother(others) => admits_another(alloc, node, others),
        Story::RefusesACrowd(others) => refuses_a_crowd(alloc, node, others),
        Story::TakesACrowdIn(others) => takes_a_crowd_in(alloc, node, others),
        Story::RaisesAsPacketsAsk => raises_as_packets_ask(alloc, node),
        Story::RefusesAsAFounder => refuses_as_a_founder(alloc, node),
        Story::RefusesAsNoMember => refuses_as_no_member(alloc, node),
        Story::HearsOfShardsAsAMember => hears_of_shards_as_a_member(alloc, node),
        Story::AnswersAlikeAfterTakingBack => answers_alike_after_taking_back(alloc, node),
    }
}

// Whether the story of the node of this letter goes so. A function that owns a node is proved to let it go at each of its
// ends, so the others borrow it.
fn is_so(alloc: Global, letter: u8, story: Story) -> Result<bool, Fail> {
    let mut node = start(alloc, letter)?;
    goes_so(alloc, &mut node, story)
}

// A node that knows nothing and is not founded is told of itself alone, with no update counted: it knows the same, so it
// answers with what it knows, which is nobody, and its view is not another.
#[test]
fn an_empty_node_answers_a_gossip_that_names_it(rt: HostRuntime) -> Result<(), Fail> {
    assert!(rt; is_so(rt.alloc(), b'b', Story::AnswersWithWhatItKnows)?);
    Ok(())
}

// A member refuses a process at an address that is not listed.
#[test]
fn unlisted_processes_are_refused(rt: HostRuntime) -> Result<(), Fail> {
    assert!(rt; is_so(rt.alloc(), b'a', Story::RefusesTheUnlisted)?);
    Ok(())
}

// A node refuses a gossip that counts more of its updates than it made.
#[test]
fn foreign_counts_are_refused(rt: HostRuntime) -> Result<(), Fail> {
    assert!(rt; is_so(rt.alloc(), b'a', Story::RefusesForeignCounts)?);
    Ok(())
}

// Where 64 are known nobody more is admitted; where 63 are, one is.
#[test]
fn at_most_64_admit_another(rt: HostRuntime) -> Result<(), Fail> {
    assert!(rt; is_so(rt.alloc(), b'a', Story::RefusesAnother(63))?);
    assert!(rt; is_so(rt.alloc(), b'a', Story::AdmitsAnother(62))?);
    Ok(())
}

// A gossip is refused where more than 128 would be known: a and b here, a and 127 others there.
#[test]
fn at_most_128_are_known(rt: HostRuntime) -> Result<(), Fail> {
    assert!(rt; is_so(rt.alloc(), b'a', Story::RefusesACrowd(127))?);
    assert!(rt; is_so(rt.alloc(), b'a', Story::TakesACrowdIn(126))?);
    Ok(())
}

// A member raises an Up member to Leaving, and a Leaving one to Down, as packets ask it, from whomever they come.
#[test]
fn packets_ask_to_leave_and_to_down(rt: HostRuntime) -> Result<(), Fail> {
    assert!(rt; is_so(rt.alloc(), b'a', Story::RaisesAsPacketsAsk)?);
    Ok(())
}

// A founder, which is Joining, refuses that it leaves itself, and that a process that it does not know leaves or is downed.
#[test]
fn members_refuse_as_at_local_events(rt: HostRuntime) -> Result<(), Fail> {
    assert!(rt; is_so(rt.alloc(), b'a', Story::RefusesAsAFounder)?);
    Ok(())
}

// A node that is no member refuses both, also of itself.
#[test]
fn others_refuse_to_leave_and_to_down(rt: HostRuntime) -> Result<(), Fail> {
    assert!(rt; is_so(rt.alloc(), b'a', Story::RefusesAsNoMember)?);
    Ok(())
}

// Packets of the shards are heard by a member alone, with the ballot that it promised; an offer is taken in any case.
#[test]
fn packets_of_shards_are_heard_by_members(rt: HostRuntime) -> Result<(), Fail> {
    assert!(rt; is_so(rt.alloc(), b'a', Story::HearsOfShardsAsAMember)?);
    Ok(())
}

// A node that took back what it answered is as it was, and the room of that answer shows in no later one.
#[test]
fn an_answer_is_taken_back(rt: HostRuntime) -> Result<(), Fail> {
    assert!(rt; is_so(rt.alloc(), b'a', Story::AnswersAlikeAfterTakingBack)?);
    Ok(())
}
