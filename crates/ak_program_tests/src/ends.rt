// Ends in memory.
use ak_address::Text;
use ak_notes::NoNotes;
use ak_outside::{MemoryClock, MemoryFile, MemoryFolder, MemoryLink, MemorySink, Status};
use ak_turns::run_node;
use std::alloc::{AllocError, Global};

// What a node is given: its configuration, the packets that come (an empty one is a quiet), the readings of its clock, and the numbers
// of the calls that fail.
#[derive(Clone, Copy)]
pub(crate) struct Given<'a> {
    pub(crate) config: &'a [u8],
    pub(crate) ticks: u64,
    pub(crate) packets: &'a [&'a [u8]],
    pub(crate) readings: &'a [u64],
    pub(crate) loads: &'a [u64],
    pub(crate) binds: &'a [u64],
    pub(crate) sends: &'a [u64],
    pub(crate) receives: &'a [u64],
    pub(crate) writes: &'a [u64],
}

// What comes of it: the status, what is printed, how many sends were asked, and how many packets were taken.
#[derive(Clone, Copy)]
pub(crate) struct Wanted<'a> {
    pub(crate) status: Status,
    pub(crate) text: &'a [u8],
    pub(crate) asked: u64,
    pub(crate) taken: usize,
}

pub(crate) fn coming(alloc: Global, packets: &[&[u8]]) -> Result<Vec<Option<Text>>, AllocError> {
    let mut all = Vec::new(alloc);
    'packets: for packet in packets {
        if packet.is_empty() {
            all.push(None)?;
        } else {
            all.push(Some(Text::from_bytes(alloc, packet)?))?;
        }
    }
    Ok(all)
}

pub(crate) fn files(alloc: Global, config: &[u8]) -> Result<Vec<MemoryFile>, AllocError> {
    let name = Text::from_bytes(alloc, b"f")?;
    let bytes = Text::from_bytes(alloc, config)?;
    let mut all = Vec::new(alloc);
    all.push(MemoryFile { name, bytes })?;
    Ok(all)
}

// Whether the node of the file of this name comes to what is wanted.
pub(crate) fn comes_to(
    alloc: Global,
    name: &[u8],
    given: &Given,
    wanted: &Wanted,
) -> Result<bool, AllocError> {
    let name = Text::from_bytes(alloc, name)?;
    let mut folder = MemoryFolder::new(alloc, files(alloc, given.config)?, given.loads)?;
    let mut link = MemoryLink::new(
        alloc,
        coming(alloc, given.packets)?,
        given.binds,
        given.sends,
        given.receives,
    )?;
    let mut clock = MemoryClock::new(alloc, given.readings)?;
    let mut output = MemorySink::new(alloc, given.writes)?;
    let ticks = given.ticks.min(1_000_000_000);
    let status = run_node(
        alloc,
        &name,
        ticks,
        &mut folder,
        &mut output,
        &mut link,
        &mut clock,
        &mut NoNotes,
    );
    let printed = output.bytes() == wanted.text;
    let sent = link.asked() == wanted.asked && link.sent_len() == wanted.taken;
    Ok(status == wanted.status && printed && sent)
}
