use ak_address::Text;
use ak_entity::Entities;
use std::alloc::Global;
use std::test::Fail;

// Whether the delivery started the entity.
fn deliver(
    alloc: Global,
    entities: &mut Entities,
    shard: u32,
    entity: &[u8],
    payload: u64,
) -> Result<bool, Fail> {
    let entity = Text::from_bytes(alloc, entity)?;
    Ok(entities.deliver(alloc, shard, &entity, payload)?)
}

fn has_log(
    alloc: Global,
    entities: &Entities,
    entity: &[u8],
    wanted: Option<&[u64]>,
) -> Result<bool, Fail> {
    let entity = Text::from_bytes(alloc, entity)?;
    Ok(entities.log(&entity) == wanted)
}

#[test]
fn entities_start_and_end_with_their_shard(rt: HostRuntime) -> Result<(), Fail> {
    let mut entities = Entities::empty(rt.alloc());
    for (shard, entity, payload, started) in [
        (6, b"cart".as_slice(), 5, true),
        (4, b"zzzzzz".as_slice(), 9, true),
        (6, b"cart".as_slice(), 7, false),
        (6, b"car".as_slice(), 0, true),
        (4, b"zzzzzz".as_slice(), 9, false),
    ] {
        assert_eq!(rt;
            deliver(rt.alloc(), &mut entities, shard, entity, payload)?,
            started
        );
    }
    assert!(rt; has_log(rt.alloc(), &entities, b"cart", Some(&[5, 7]))?);
    entities.stop_shard(6);
    for (entity, log) in [
        (b"cart".as_slice(), None),
        (b"car".as_slice(), None),
        (b"zzzzzz".as_slice(), Some([9, 9].as_slice())),
        (b"a".as_slice(), None),
    ] {
        assert!(rt; has_log(rt.alloc(), &entities, entity, log)?);
    }
    assert!(rt; deliver(rt.alloc(), &mut entities, 6, b"cart", 8)?);
    assert!(rt; has_log(rt.alloc(), &entities, b"cart", Some(&[8]))?);
    Ok(())
}
