//! What a program is made of.

use crate::node::Placed;
use hb_types::ids::{NameId, NodeId};
use hb_types::types::{MethodTy, PARAMS_MAX};

/// What a `def` gives to its method.
#[derive(Clone, Copy, Debug, PartialEq, Eq)]
pub struct Body {
    /// The `def` itself.
    pub def: NodeId,
    pub block: NodeId,
    /// How many parameters there are.
    pub count: u8,
    /// The parameters in their order; what stands past the count has no meaning.
    pub params: [NameId; PARAMS_MAX],
}

/// The lists of a program. Ids count the places of these lists from 0.
#[derive(Debug, Drop)]
pub struct ProgramParts {
    /// The names of the classes, in the order of declaration.
    pub classes: Vec<Vec<u8>>,
    /// The different names.
    pub names: Vec<Vec<u8>>,
    /// The values of the text literals.
    pub texts: Vec<Vec<u8>>,
    pub nodes: Vec<Placed>,
    /// The items of the blocks. Each block has a range of its own.
    pub items: Vec<NodeId>,
    /// What each `def` gives.
    pub bodies: Vec<Body>,
    /// The type that each `type` and `type?` gives, and the node itself.
    pub types: Vec<(MethodTy, NodeId)>,
    /// The setup's block.
    pub setup: Option<NodeId>,
    /// Each script's name and block.
    pub scripts: Vec<(NameId, NodeId)>,
}
