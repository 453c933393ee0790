//! The twin chains of a volume: each segment, with the twin behind it.

ghost use Rattle.hd_dbd.specs.Refusals.{OnlyMemory};

use crate::survey::TypeUse;
use hd_dbd::Refused;

/// A segment: where it stands, where its twin forward pointer leads, and its code. Once the pointers are looked up,
/// `forward` is the number of the twin in the table, from 1, or 0 for none. `named` says that a twin leads to it, and
/// `walked` that it is counted in a chain.
#[derive(Clone, Copy)]
pub struct Twin {
    pub address: u32,
    pub forward: u32,
    pub code: u8,
    pub named: bool,
    pub walked: bool,
}

/// A chain that was walked: how many segments it has, and whether it came upon one that was passed already.
#[derive(Clone, Copy)]
struct Chain {
    length: u32,
    loops: bool,
}

/// Notes a segment.
pub fn note_twin(twins: &mut Vec<Twin>, address: u32, forward: u32, code: u8) -> Result<(), Refused>
    ensures { OnlyMemory result }
{
    let twin = Twin {
        address,
        forward,
        code,
        named: false,
        walked: false,
    };
    match twins.push(twin) {
        Ok(()) => Ok(()),
        Err(_) => Err(Refused::Memory),
    }
}

/// Counts the twin chains of all types. The segments stand in the order of their addresses; each is passed once.
pub fn count_chains(twins: &mut Vec<Twin>, types: &mut Vec<TypeUse>) {
    for place in 0..twins.len() {
        find_forward(twins, types, place);
    }
    for place in 0..twins.len() {
        count_from(twins, types, place, true);
    }
    for place in 0..twins.len() {
        count_from(twins, types, place, false);
    }
}

/// The place in the table of the segment at an address, if one stands there.
fn place_of(twins: &[Twin], address: u32) -> Option<usize> {
    twins
        .binary_search_by_key(&address, |twin| twin.address)
        .ok()
}

/// Looks up the twin behind a segment.
fn find_forward(twins: &mut Vec<Twin>, types: &mut Vec<TypeUse>, place: usize) {
    let Some(twin) = twins.get(place).copied() else {
        return;
    };
    if twin.forward == 0 {
        return;
    }
    let found = place_of(twins, twin.forward);
    if !is_joined(twins, place, found, twin.code) {
        note_nowhere(types, twin.code);
    }
}

/// Joins a segment to the twin that was found behind it, if it is one of the same type; if not, the chain ends.
fn is_joined(twins: &mut Vec<Twin>, place: usize, found: Option<usize>, code: u8) -> bool {
    let mut forward = 0;
    if let Some(next) = found {
        if let Some(twin) = twins.get_mut(next) {
            if twin.code == code {
                twin.named = true;
                forward = u32::try_from(next.saturating_add(1)).unwrap_or(0);
            }
        }
    }
    if let Some(twin) = twins.get_mut(place) {
        twin.forward = forward;
    }
    forward != 0
}

/// What is found of the type of a code.
pub fn type_at(types: &mut Vec<TypeUse>, code: u8) -> Option<&mut TypeUse> {
    types.get_mut((code as usize).saturating_sub(1))
}

fn note_nowhere(types: &mut Vec<TypeUse>, code: u8) {
    if let Some(own) = type_at(types, code) {
        own.nowhere = own.nowhere.saturating_add(1);
    }
}

/// Counts a segment of a type, the bytes that it takes, and its own among them.
pub fn note_segment(types: &mut Vec<TypeUse>, code: u8, stored: u64, data: u64) {
    if let Some(own) = type_at(types, code) {
        own.segments = own.segments.saturating_add(1);
        own.stored = own.stored.saturating_add(stored);
        own.data = own.data.saturating_add(data);
    }
}

/// Counts a parent of segments of a type.
pub fn note_parent(types: &mut Vec<TypeUse>, code: u8) {
    if let Some(own) = type_at(types, code) {
        own.parents = own.parents.saturating_add(1);
    }
}

/// Counts a chain of segments of a type that begins at an address.
fn note_chain(types: &mut Vec<TypeUse>, code: u8, first: u32, chain: Chain) {
    if let Some(own) = type_at(types, code) {
        own.chains = own.chains.saturating_add(1);
        if chain.length > own.longest {
            own.longest = chain.length;
            own.longest_first = first;
        }
        if chain.loops {
            own.looping = own.looping.saturating_add(1);
        }
    }
}

/// Counts the chain that begins at a segment, if it is not counted yet; of the `first` ones alone where no twin leads
/// to it.
fn count_from(twins: &mut Vec<Twin>, types: &mut Vec<TypeUse>, place: usize, first: bool) {
    let Some(twin) = twins.get(place).copied() else {
        return;
    };
    if twin.walked || (first && twin.named) {
        return;
    }
    let chain = walk(twins, place);
    note_chain(types, twin.code, twin.address, chain);
}

/// Walks a chain to its end, or to a segment that is passed already.
fn walk(twins: &mut Vec<Twin>, start: usize) -> Chain {
    let mut place = start;
    let mut length = 0u32;
    for _twin in 0..twins.len() {
        let forward = pass(twins, place);
        match forward {
            None => return Chain {
                length,
                loops: true,
            },
            Some(0) => {
                let length = length.saturating_add(1);
                return Chain {
                    length,
                    loops: false,
                };
            }
            Some(next) => {
                length = length.saturating_add(1);
                place = (next as usize).saturating_sub(1);
            }
        }
    }
    Chain {
        length,
        loops: true,
    }
}

/// Marks a segment as counted, and says where its chain goes on; `None` where it is counted already.
fn pass(twins: &mut Vec<Twin>, place: usize) -> Option<u32> {
    let twin = twins.get_mut(place)?;
    if twin.walked {
        return None;
    }
    twin.walked = true;
    Some(twin.forward)
}
