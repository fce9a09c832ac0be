//! A list of events as a chain of nodes in a store that many chains share. Each chain ends in a spare node, into which its next
//! event is written. So a chain is never without a node, and it asks of no event whether it is the first one.

ghost use Rattle.std.specs.Prelude.{◌≡◌, ℕ, ◌==◌, ◌+◌, ◌<◌, ◌≤◌, ◌^◌, false, List, Some, length, slice_get, vec_len, IfNone, IfOk, IfSome};
ghost use Rattle.parked_queue.specs.Chains.{AreInRow, HasChain, HasNone, IsBehind, IsFilled, IsLinked, AreNewChains, events_of, next_of, path_of};
ghost use Rattle.parked_queue.specs.Lists.{has_number, numbered, numbered_from};
ghost use Rattle.parked_queue.specs.Store.{HasCome, HasStore, IsOfStore};
ghost use Rattle.parked_queue.specs.declared.chain.Chain.{Chain as ChainValue};

use evt_types::{Numbered, PackedEvent, Reply};
use std::alloc::{AllocError, Global};

/// An event, and the node behind it. The event counts only where it waits.
#[derive(Clone, Copy)]
pub(crate) struct Node {
    pub(crate) item: Numbered,
    pub(crate) next: usize,
}

/// The chain's first node, and its spare one, which is the last. Where they are the same, nothing waits.
#[derive(Clone, Copy)]
pub(crate) struct Chain {
    pub(crate) first: usize,
    pub(crate) spare: usize,
}

/// So many nodes, each of which leads to the one behind it.
pub(crate) fn row_of_nodes(alloc: Global, count: usize) -> Result<Vec<Node>, AllocError>
    ensures { IfOk result (λ v. AreInRow v.items count) }
{
    let mut nodes = Vec::with_capacity(alloc, count)?;
    for node in 0..count {
        nodes.push_reserved(Node {
            item: Numbered {
                number: 0,
                event: PackedEvent::release(),
            },
            next: node + 1,
        });
    }
    Ok(nodes)
}

/// So many chains in which nothing waits. Each has the node of its own number.
pub(crate) fn empty_chains(alloc: Global, count: usize) -> Result<Vec<Chain>, AllocError>
    ensures { IfOk result (λ v. AreNewChains v.items count) }
{
    let mut chains = Vec::with_capacity(alloc, count)?;
    for node in 0..count {
        chains.push_reserved(Chain {
            first: node,
            spare: node,
        });
    }
    Ok(chains)
}

/// Takes the node that became free last. Of those that are left it is the one that it leads to.
#[inline(always)]
pub(crate) fn take_node(nodes: &Vec<Node>, free: &mut usize) -> usize
    requires { free.old < vec_len nodes.now }
    ensures node { result ≡ free.old }
    ensures rest { free.new ≡ next_of (slice_get nodes.now.items free.old) }
{
    let node = *free;
    *free = nodes[node].next;
    node
}

/// Puts the event into the chain's spare node, which leads to the next spare one: whether it is the only event. It is copied there
/// from where it lies.
#[inline(always)]
pub(crate) fn append(
    nodes: &mut Vec<Node>,
    chain: &mut Chain,
    spare: usize,
    number: u64,
    event: &PackedEvent,
) -> bool
    requires { chain.old.spare < vec_len nodes.old }
    ensures only { result ≡ (chain.old.first == chain.old.spare) }
    ensures chain { chain.new ≡ record { first = chain.old.first; spare = spare } }
    ensures filled { IsFilled nodes.old.items nodes.new.items chain.old.spare (record { item = numbered number event.now; next = spare }) }
    ensures count { vec_len nodes.new ≡ vec_len nodes.old }
{
    let node = chain.spare;
    let only = chain.first == node;
    chain.spare = spare;
    let filled = &mut nodes[node];
    filled.item.event = *event;
    filled.item.number = number;
    filled.next = spare;
    only
}

/// Puts the events of the replies into the chain one after the other, under numbers from this one on. Each goes into the chain's spare
/// node, and the free nodes lead to one another.
#[inline(always)]
pub(crate) fn append_row(
    nodes: &mut Vec<Node>,
    chain: &mut Chain,
    free: &mut usize,
    number: u64,
    replies: &[Reply],
)
    requires store { HasStore (slice_get nodes.old.items) (vec_len nodes.old) free.old chain.old (length replies.now) }
    requires numbers { number + length replies.now ≤ 2 ^ 63 }
    ensures come { (cs : List ChainValue) (room k : ℕ) → IsOfStore (slice_get nodes.old.items) (vec_len nodes.old) free.old chain.old (length replies.now) cs room k → HasCome (slice_get nodes.old.items) (slice_get nodes.new.items) (vec_len nodes.old) free.new chain.new (numbered_from number replies.now) cs room k }
    ensures count { vec_len nodes.new ≡ vec_len nodes.old }
{
    for (index, reply) in replies.iter().enumerate() {
        let spare = take_node(nodes, free);
        let _ = append(nodes, chain, spare, number + index as u64, &reply.event);
    }
}

/// Makes the node the one that became free last: the node that it led to.
#[inline(always)]
pub(crate) fn release(nodes: &mut Vec<Node>, free: &mut usize, node: usize) -> usize
    requires { node < vec_len nodes.old }
    ensures next { result ≡ next_of (slice_get nodes.old.items node) }
    ensures free { free.new ≡ node }
    ensures linked { IsLinked nodes.old.items nodes.new.items node free.old }
    ensures count { vec_len nodes.new ≡ vec_len nodes.old }
{
    let released = &mut nodes[node];
    let next = released.next;
    released.next = *free;
    *free = node;
    next
}

/// Lets the node lead past the one behind it: that one.
pub(crate) fn skip(nodes: &mut Vec<Node>, node: usize) -> usize
    requires node { node < vec_len nodes.old }
    requires behind { next_of (slice_get nodes.old.items node) < vec_len nodes.old }
    ensures skipped { result ≡ next_of (slice_get nodes.old.items node) }
    ensures linked { IsLinked nodes.old.items nodes.new.items node (next_of (slice_get nodes.old.items result)) }
    ensures count { vec_len nodes.new ≡ vec_len nodes.old }
{
    let behind = nodes[node].next;
    nodes[node].next = nodes[behind].next;
    behind
}

/// The node of the event so many behind the chain's first one.
#[inline(always)]
pub(crate) fn node_behind(nodes: &Vec<Node>, chain: Chain, count: usize) -> usize
    requires chain { HasChain (slice_get nodes.now.items) (vec_len nodes.now) chain }
    requires some { count < length (path_of (slice_get nodes.now.items) (vec_len nodes.now) chain) }
    ensures { slice_get (path_of (slice_get nodes.now.items) (vec_len nodes.now) chain) count ≡ Some result }
{
    let mut node = chain.first;
    for _ in 0..count {
        node = nodes[node].next;
    }
    node
}

/// The node before the one whose event has the number, which isn't the first one.
pub(crate) fn node_before(nodes: &Vec<Node>, chain: Chain, number: u64) -> Option<usize>
    requires chain { HasChain (slice_get nodes.now.items) (vec_len nodes.now) chain }
    requires other { has_number number (slice_get (events_of (slice_get nodes.now.items) (vec_len nodes.now) chain) 0) ≡ false }
    ensures found { IfSome result (λ i. IsBehind (slice_get nodes.now.items) (vec_len nodes.now) chain number i) }
    ensures none { IfNone result (HasNone (slice_get nodes.now.items) (vec_len nodes.now) chain number) }
{
    if chain.first == chain.spare {
        return None;
    }
    let mut before = chain.first;
    let mut node = nodes[before].next;
    while node != chain.spare {
        let Node { item, next } = nodes[node];
        if item.number == number {
            return Some(before);
        }
        before = node;
        node = next;
    }
    None
}
