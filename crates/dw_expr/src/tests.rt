//! A test of copies, of equality, and of a value over columns that are no row of their own.
use super::*;
use dw_value::{Kind, List, Text, Value};
use std::alloc::{AllocError, Global};
use std::test::Fail;

/// Columns of one row, each with its value.
#[derive(Drop)]
struct Listed {
    values: List<Value>,
}

impl Columns for Listed {
    ghost values = { λ listed. listed.values };

    fn column(&self, place: u32) -> Option<&Value> {
        self.values.get(place as usize)
    }
}

fn number(alloc: Global, coefficient: i128) -> Result<Box<Expr>, AllocError> {
    let scale = 0;
    let node = Node::Literal(Literal::Number { coefficient, scale });
    keep(alloc, Expr { node })
}

/// `case when a in (1, LAST) then 7 end`.
fn written(alloc: Global, last: i128) -> Result<Expr, AllocError> {
    let mut list = Exprs {
        node: ExprsNode::End,
    };
    for coefficient in [last, 1] {
        let rest = keep(alloc, list)?;
        list = Exprs {
            node: ExprsNode::More(number(alloc, coefficient)?, rest),
        };
    }
    let source = None;
    let name = Text::from_str(alloc, "a")?;
    let node = Node::Column { source, name };
    let node = Node::InList(false, keep(alloc, Expr { node })?, keep(alloc, list)?);
    let condition = keep(alloc, Expr { node })?;
    let node = ArmsNode::End;
    let rest = keep(alloc, Arms { node })?;
    let node = ArmsNode::More(condition, number(alloc, 7)?, rest);
    Ok(Expr {
        node: Node::Case(keep(alloc, Arms { node })?, None),
    })
}

fn bound_number(alloc: Global, value: i128) -> Result<Box<BoundExpr>, AllocError> {
    let node = BoundNode::Literal(Value::Number(value), Kind::Int);
    keep(alloc, BoundExpr { node })
}

/// The same with `a` bound to the second column.
fn bound(alloc: Global, last: i128) -> Result<BoundExpr, AllocError> {
    let mut list = BoundExprs {
        node: BoundExprsNode::End,
    };
    for value in [last, 1] {
        let rest = keep(alloc, list)?;
        list = BoundExprs {
            node: BoundExprsNode::More(bound_number(alloc, value)?, rest),
        };
    }
    let node = BoundNode::Column {
        source: 0,
        place: 1,
        kind: Kind::Int,
    };
    let node = BoundNode::InList(false, keep(alloc, BoundExpr { node })?, keep(alloc, list)?);
    let condition = keep(alloc, BoundExpr { node })?;
    let node = BoundArmsNode::End;
    let rest = keep(alloc, BoundArms { node })?;
    let node = BoundArmsNode::More(condition, bound_number(alloc, 7)?, rest);
    Ok(BoundExpr {
        node: BoundNode::Case(keep(alloc, BoundArms { node })?, None, Kind::Int),
    })
}

#[test]
fn trees_are_copied_and_compared(rt: HostRuntime) -> Result<(), Fail> {
    let alloc = rt.alloc();
    let tree = written(alloc, 5)?;
    assert!(rt; tree.copy(alloc)? == tree);
    assert!(rt; tree != written(alloc, 6)?);
    let tree = bound(alloc, 5)?;
    assert!(rt; tree.copy(alloc)? == tree);
    assert!(rt; tree != bound(alloc, 6)?);
    let mut values = List::new(alloc);
    values.push(Value::Null)?;
    values.push(Value::Number(5))?;
    let value = evaluate_at(alloc, &tree, &Listed { values })?;
    assert!(rt; matches!(value, Value::Number(7)));
    Ok(())
}
