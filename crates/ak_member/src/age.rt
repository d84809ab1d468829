ghost use Rattle.std.specs.Prelude.{◌≡◌, ◌≢◌, ◌<◌, ◌^◌, [], ◌∷◌, ◌++◌, IfOk, OnOk, OnErr, IsTrue, slice_get, option_map, option_to_list, option_copied};
ghost use Rattle.std.specs.Prelude as list;
ghost use Rattle.std.specs.FinMap as map;
ghost use Rattle.ak_address.specs.Distinct.{distinct};
ghost use Rattle.ak_member.specs.Standing.{member_pairs, members_of};
ghost use Rattle.ak_member.specs.Age.{counts, counted_pairs, least_pair, oldest, role_pairs, IsOldest, role_addresses, IsByAge};
ghost use Rattle.ak_member.specs.Indices.{indexed_from};

use crate::members::{Member, Members};
use ak_address::{Address, AddressCount, Unique, contains_address};
use std::alloc::{AllocError, Global};

impl Members {
    /// The oldest member: of the Up and Leaving ones that with the least up number, at equal numbers the first in the
    /// order of processes; none exactly where no member is Up or Leaving (Akka's "Cluster Singleton" runs on it; that
    /// Leaving members count is this project's choice). Takes no memory.
    pub fn oldest(&self) -> Option<&Unique>
        ensures value { option_copied result ≡ oldest self.now }
        ensures meaning { IsOldest self.now (option_copied result) }
    {
        self.first_by_age()
    }

    /// The indices among the members of the Up and Leaving ones, the oldest first, each once (Akka's "Cluster Singleton"
    /// orders members by age). Only memory can fail, and only where a member is Up or Leaving.
    pub fn by_age(&self, alloc: Global) -> Result<Vec<u32>, AllocError>
        requires { map.len self.now < 2 ^ 32 }
        ensures ok { IfOk result (λ indices. IsByAge self.now indices.items) }
        ensures memory { OnErr result (counted_pairs (members_of self.now) ≢ []) }
    {
        let mut counted = counted_indices(alloc, self)?;
        if counted.len() == 0 {
            return Ok(Vec::new(alloc));
        }
        counted.sort_unstable();
        indices_of(alloc, &counted)
    }

    /// The process and the up number of the member at a pair, where there is one and it is Up or Leaving: a pair is an
    /// index among all that are known, from 0 on in the order of processes. Takes no memory.
    pub fn counted_at_pair(&self, pair: usize) -> Option<(&Unique, u64)>
        ensures { option_to_list (option_map (λ r. (r.0.now, r.1)) result) ≡ counted_pairs (member_pairs (option_to_list (slice_get (map.entries self.now) pair))) }
    {
        match self.member_at_pair(pair) {
            Some(member) => counted_one(&member),
            None => None,
        }
    }

    /// The same of a member whose address has the role: a quorum is counted over these. Takes no memory.
    pub fn role_at_pair(&self, role: &[Address], pair: usize) -> Option<(&Unique, u64)>
        ensures { option_to_list (option_map (λ r. (r.0.now, r.1)) result) ≡ role_pairs role.now (member_pairs (option_to_list (slice_get (map.entries self.now) pair))) }
    {
        match self.counted_at_pair(pair) {
            Some((unique, number)) => {
                if contains_address(role, &unique.address) {
                    return Some((unique, number));
                }
                None
            }
            None => None,
        }
    }

    /// How many different addresses with the role the Up and Leaving members have: what the resolver counts against a quorum
    /// (Akka's "Split Brain Resolver", "Static Quorum"; that addresses are counted and not processes is this project's choice).
    /// Takes no memory.
    pub fn counted(&self, role: &[Address]) -> u32
        requires { map.len self.now < 2 ^ 32 }
        ensures { result ≡ distinct (role_addresses role.now self.now) }
    {
        count_in(role, self)
    }
}

// How many different addresses with the role the members have that count.
fn count_in(role: &[Address], members: &Members) -> u32
    requires { map.len members.now < 2 ^ 32 }
    ensures { result ≡ distinct (role_addresses role.now members.now) }
{
    let mut addresses = AddressCount::none();
    'pairs: for pair in 0..members.uniques() {
        if let Some((unique, _)) = members.role_at_pair(role, pair) {
            addresses.add(unique);
        }
    }
    addresses.count()
}

// The process and the up number of a member that counts.
fn counted_one<'a>(member: &Member<'a>) -> Option<(&'a Unique, u64)>
    ensures { option_to_list (option_map (λ r. (r.0.now, r.1)) result) ≡ counted_pairs ((member.now.unique.now, (member.now.status, member.now.up_number)) ∷ []) }
{
    if member.status.counts() {
        return Some((member.unique, member.up_number));
    }
    None
}

// The up number and the index of each member that counts, in the order of indices.
fn counted_indices(alloc: Global, members: &Members) -> Result<Vec<(u64, u32)>, AllocError>
    requires { map.len members.now < 2 ^ 32 }
    ensures ok { IfOk result (λ counted. counted.items ≡ indexed_from 0 (members_of members.now)) }
    ensures memory { OnErr result (indexed_from 0 (members_of members.now) ≢ []) }
{
    let mut counted = Vec::new(alloc);
    let mut index = 0;
    'pairs: for pair in 0..members.uniques() {
        if let Some(member) = members.member_at_pair(pair) {
            push_counted(&mut counted, &member, index)?;
            index += 1;
        }
    }
    Ok(counted)
}

// Appends the up number and the index of a member that counts.
fn push_counted(
    counted: &mut Vec<(u64, u32)>,
    member: &Member<'_>,
    index: u32,
) -> Result<(), AllocError>
    ensures ok { OnOk result (counted.new.items ≡ counted.old.items ++ indexed_from index ((member.now.unique.now, (member.now.status, member.now.up_number)) ∷ [])) }
    ensures memory { OnErr result (IsTrue (counts member.now.status)) }
{
    if member.status.counts() {
        counted.push((member.up_number, index))?;
    }
    Ok(())
}

fn indices_of(alloc: Global, counted: &[(u64, u32)]) -> Result<Vec<u32>, AllocError>
    ensures { IfOk result (λ indices. indices.items ≡ list.map (λ pair. pair.1) counted.now) }
{
    counted.iter().map(|pair| pair.1).collect(alloc)
}
