//! Each tells a proof what is true of every value of a type. They do nothing.

ghost use Rattle.std.specs.Prelude.{◌<◌, ◌^◌};
ghost use Rattle.ak_address.specs.Unique.{IsAddress, IsUnique};
ghost use Rattle.ak_field.specs.Ranges.{IsEntity};

use ak_address::{Address, Unique};
use ak_field::EntityId;

pub(crate) fn process(who: &Unique)
    ensures { IsUnique who.now }
{
    let _uid = who.uid;
}

pub(crate) fn address(place: &Address)
    ensures { IsAddress place.now }
{
    let _port = place.port;
}

pub(crate) fn offered(entity: &EntityId, payload: u64)
    ensures { IsEntity entity.now × (payload < 2 ^ 64) }
{
    let _name = entity.name();
    let _payload = payload;
}
