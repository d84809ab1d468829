//! The generated run of a seed: a world is given what its generator gives, event by event.

ghost use Rattle.std.specs.Prelude.{◌≡◌, ◌<◌, ◌≤◌, ◌^◌, [], false, IfOk, OnOk, length};
ghost use Rattle.ak_generate.specs.Fixed.{fixed};
ghost use Rattle.ak_world.specs.World.{empty_world};
ghost use Rattle.ak_sweeps.specs.GeneratedRun as rules;
ghost use Rattle.ak_sweeps.specs.GeneratedRun.{IsLineOf, KeepsApart};
ghost use Rattle.ak_sweeps.specs.RunContracts.{IsPlayed, TurnAnswers, IsAfter, followed, is_kept};

use ak_address::Uniques;
use ak_generate::{Generator, Sight, fixed_settings};
use ak_sweep::Line;
use ak_world::{Margin, Refused, World};
use std::alloc::{AllocError, Global};

// What the generator sees before anything has happened.
fn first_sight(alloc: Global) -> Sight
    ensures { result ≡ rules.sight_of empty_world }
{
    Sight {
        running: Uniques::empty(alloc),
        starts: 0,
        packets: 0,
    }
}

// What it sees after a step of the node of this number, or of none.
fn follow(
    alloc: Global,
    sight: &mut Sight,
    world: &World,
    node: Option<u32>,
) -> Result<(), AllocError>
    requires { sight.old.starts ≤ 64 }
    ensures { OnOk result (sight.new ≡ followed node world.now.state sight.old) }
{
    // Before all else: packets are sent by a node that stops, too.
    sight.packets = world.packets();
    let Some(number) = node else {
        return Ok(());
    };
    let Some(node) = world.node(number) else {
        return Ok(());
    };
    if node.stopped() {
        sight.running.remove(node.me());
        return Ok(());
    }
    if number == sight.starts {
        sight.running.insert(alloc, node.me())?;
        sight.starts += 1;
    }
    Ok(())
}

// The event that comes next happens in the world. False where none comes, or it is refused; then the world is as it was.
fn turn(
    alloc: Global,
    generator: &mut Generator,
    sight: &mut Sight,
    world: &mut World,
) -> Result<bool, AllocError>
    requires played { IsPlayed world.old }
    requires few { length world.old.events < 2 ^ 62 }
    requires seen { sight.old ≡ rules.sight_of world.old.state }
    ensures turn { IfOk result (λ went. TurnAnswers went generator.old world.old generator.new world.new) }
    ensures seen { OnOk result (sight.new ≡ rules.sight_of world.new.state) }
{
    let Some(event) = generator.next(alloc, sight)? else {
        return Ok(false);
    };
    match world.apply(alloc, &event) {
        Ok(step) => {
            // Seen after the event, since what comes next depends on the world as it is then.
            follow(alloc, sight, world, step.node)?;
            world.take_back(step);
            Ok(true)
        }
        Err(Refused::Invalid(_)) => Ok(false),
        Err(Refused::NoMemory(error)) => Err(error),
    }
}

// A world after a run, and of how many events it is.
#[derive(Drop)]
struct Played {
    world: World,
    steps: u64,
}

// The world in which nothing has happened: the spare one, if there is one.
fn begin(alloc: Global, spare: &mut Option<World>) -> Result<World, AllocError>
    ensures { IfOk result (λ world. world ≡ record { settings = fixed; state = empty_world; events = []; spent = false }) }
{
    let settings = fixed_settings(alloc)?;
    match spare.take() {
        Some(mut world) => {
            world.renew(alloc, settings);
            Ok(world)
        }
        None => Ok(World::new(alloc, settings)),
    }
}

// The run of a seed, of at most so many events, in the spare world, if there is one.
fn play(
    alloc: Global,
    spare: &mut Option<World>,
    seed: u64,
    events: u64,
) -> Result<Played, AllocError>
    requires { events < 2 ^ 62 }
    ensures { IfOk result (IsAfter seed events) }
{
    let mut generator = Generator::new(seed);
    let mut world = begin(alloc, spare)?;
    let mut sight = first_sight(alloc);
    'events: for steps in 0..events {
        if !turn(alloc, &mut generator, &mut sight, &mut world)? {
            return Ok(Played { world, steps });
        }
    }
    Ok(Played {
        world,
        steps: events,
    })
}

fn is_kept(margin: Margin) -> bool
    ensures { result ≡ is_kept margin }
{
    match margin {
        Margin::Kept => true,
        Margin::Broken {
            step: _,
            node: _,
            member: _,
        } => false,
    }
}

/// The line of a seed: what came of its run, which is over after so many events, where none comes next, or before one that
/// is refused because as many packets were sent as may be. No event is refused for another reason, so each seed has one line.
/// Where the line says that the margin was kept it says that there is no double. The spare world, if there is one, may be of any
/// run: the room that it took serves this run, and the world of this run is spare then. Only memory can fail. (This project's
/// choice.)
pub fn line_of(
    alloc: Global,
    spare: &mut Option<World>,
    seed: u64,
    events: u64,
) -> Result<Line, AllocError>
    requires { events < 2 ^ 62 }
    ensures line { IfOk result (IsLineOf seed events) }
    ensures apart { IfOk result KeepsApart }
{
    let Played { world, steps } = play(alloc, spare, seed, events)?;
    let line = Line {
        seed,
        steps,
        packets: world.packets(),
        history: world.history().len() as u64,
        kept: is_kept(world.margin()),
        double: world.first_double().is_some(),
    };
    *spare = Some(world);
    Ok(line)
}
