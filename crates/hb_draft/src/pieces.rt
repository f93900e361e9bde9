//! Pieces that the steps of a draft share: lists of nodes, and lists of a fixed length.

ghost use Rattle.std.specs.Prelude.{◌≡◌, ◌+◌, ◌-◌, ◌<◌, ◌≤◌, [], ◌∷◌, ◌++◌, All, OnOk, OnErr, drop, length, map, take};
ghost use Rattle.std.specs.List.{AllByRecursion};
ghost use Rattle.hb_tree.specs.Nodes.{args_of, params_of};
ghost use Rattle.hb_tree.specs.Program.{IsArgList};
ghost use Rattle.hb_draft.specs.Laid.{IsFilled};
ghost use Rattle.hb_draft.specs.Put.{last_nodes};
ghost use Rattle.hb_draft.specs.Kept.{greatest, heights_after};

use hb_tree::limits::HEIGHT_MAX;
use hb_tree::node::{ArgList, Node, Placed};
use hb_tree::parts::Body;
use hb_types::ids::{NameId, NodeId};
use std::alloc::AllocError;

/// A node with its place.
pub fn placed(node: Node, place: (u32, u32)) -> Placed
    ensures { result ≡ record { node = node; line = place.0; column = place.1 } }
{
    Placed {
        node,
        line: place.0,
        column: place.1,
    }
}

/// The last `count` of these nodes.
pub fn last_of(nodes: &[NodeId], count: usize) -> &[NodeId]
    requires { count ≤ length nodes.now }
    ensures { result.now ≡ last_nodes count nodes.now }
{
    &nodes[nodes.len() - count..]
}

/// The greatest of these numbers, and 0 where there is none.
fn greatest(numbers: &[u16]) -> u16
    ensures { result ≡ greatest numbers.now }
{
    numbers.iter().copied().max().unwrap_or(0)
}

/// Appends a node, and puts it into the hand in place of the last `count` there, which are its
/// parts. It is one higher than the highest of them.
pub fn push_node(
    nodes: &mut Vec<Placed>,
    hand: &mut Vec<NodeId>,
    heights: &mut Vec<u16>,
    node: Placed,
    count: usize,
) -> Result<(), AllocError>
    requires count { count ≤ length hand.old.items }
    requires heights { length heights.old.items ≡ length hand.old.items }
    requires low { AllByRecursion (λ h. h ≤ HEIGHT_MAX) heights.old.items }
    requires room { length nodes.old.items < 65536 }
    ensures nodes { OnOk result (nodes.new.items ≡ nodes.old.items ++ node ∷ []) }
    ensures hand { OnOk result (hand.new.items ≡ take (length hand.old.items - count) hand.old.items ++ record { 0 = length nodes.old.items } ∷ []) }
    ensures heights { OnOk result (heights.new.items ≡ heights_after count heights.old.items) }
    ensures nodes_err { OnErr result (nodes.new.items ≡ nodes.old.items) }
    ensures hand_err { OnErr result (hand.new.items ≡ hand.old.items) }
    ensures heights_err { OnErr result (heights.new.items ≡ heights.old.items) }
{
    let id = NodeId(nodes.len() as u16);
    let height = 1 + greatest(&heights[heights.len() - count..]);
    hand.reserve(1)?;
    heights.reserve(1)?;
    nodes.push(node)?;
    hand.truncate(hand.len() - count);
    hand.push(id).unwrap();
    heights.truncate(heights.len() - count);
    heights.push(height).unwrap();
    Ok(())
}

/// The places past the arguments are filled with the receiver.
pub fn arg_list(receiver: NodeId, args: &[NodeId]) -> ArgList
    requires { length args.now ≤ 4 }
    ensures args { args_of result ≡ args.now }
    ensures form { IsArgList receiver result }
{
    let mut ids = [receiver; 4];
    ids[..args.len()].copy_from_slice(args);
    ArgList {
        count: args.len() as u8,
        ids,
    }
}

/// What a definition gives to its method.
pub fn body_of(def: NodeId, block: NodeId, params: &[NameId]) -> Body
    requires { length params.now ≤ 4 }
    ensures def { result.def ≡ def }
    ensures block { result.block ≡ block }
    ensures params { params_of result ≡ map (λ x. x.0) params.now }
    ensures places { length result.params ≡ 4 }
    ensures few { result.count ≤ 4 }
    ensures filled { IsFilled result }
{
    Body {
        def,
        block,
        count: params.len() as u8,
        params: param_list(params),
    }
}

/// The places past the parameters have no meaning, and are filled with the name of number 0.
fn param_list(params: &[NameId]) -> [NameId; 4]
    requires { length params.now ≤ 4 }
    ensures params { take (length params.now) result ≡ params.now }
    ensures places { length result ≡ 4 }
    ensures filled { All (λ x. x.0 ≡ 0) (drop (length params.now) result) }
{
    let mut list = [NameId(0); 4];
    list[..params.len()].copy_from_slice(params);
    list
}
