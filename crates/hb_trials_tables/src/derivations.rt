//! A derivation and its copy.

use hb_deriv::raw::{Derivation, Step, Used};
use hb_types::ids::{BodySite, ClassId, NameId, NodeId, TypeSite};
use hb_types::types::Ty;
use std::test::Fail;

#[test]
fn a_copy_has_all_of_it(rt: HostRuntime) -> Result<(), Fail> {
    let used = |class, name, site| Used {
        class: ClassId(class),
        name: NameId(name),
        site: TypeSite(site),
    };
    let step = |node, ty| Step {
        node: NodeId(node),
        ty,
    };
    let class = Ty::Class(ClassId(1));
    let derivation = Derivation {
        class: ClassId(1),
        body: BodySite(2),
        declared: TypeSite(3),
        uses: vec![in rt.alloc(); used(1, 7, 4), used(0, 7, 5)]?,
        steps: vec![in rt.alloc(); step(0, class), step(1, Ty::Int), step(2, Ty::Any)]?,
    };
    let copy = derivation.copy(rt.alloc())?;
    assert_eq!(rt; copy.class, derivation.class);
    assert_eq!(rt; copy.body, derivation.body);
    assert_eq!(rt; copy.declared, derivation.declared);
    assert_eq!(rt; copy.uses, derivation.uses);
    assert_eq!(rt; copy.steps, derivation.steps);
    Ok(())
}
