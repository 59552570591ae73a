//! Expressions, with the offset of each operator in its text.

ghost use Rattle.std.specs.Prelude.{◌≡◌};

use frac128::Whole;
use std::alloc::{AllocError, Global};

/// An operator with one operand.
#[derive(Clone, Copy)]
pub enum UnaryOperator {
    Neg,
    /// A quotient by a number, which isn't 0.
    Div { by: Whole },
    Power { exponent: u32 },
}

/// An operator with two operands.
#[derive(Clone, Copy)]
pub enum BinaryOperator {
    Add,
    Sub,
    Mul,
}

/// An expression over variables that go by their positions. `at` is the offset of the operator in the text.
#[derive(Drop)]
pub enum Expr {
    Number {
        value: Whole,
    },
    Variable {
        index: usize,
    },
    Unary {
        at: usize,
        operator: UnaryOperator,
        of: Box<Expr>,
    },
    Binary {
        at: usize,
        operator: BinaryOperator,
        left: Box<Expr>,
        right: Box<Expr>,
    },
}

impl Expr {
    ghost use Rattle.std.specs.Prelude.{option_map, IfOk};
    ghost use Rattle.loop_model.specs.Uses.{uses};
    ghost use Rattle.loop_model.specs.ExpressionView.{expr_of, parts_of};
    ghost use Rattle.loop_model.specs.Spine.{first_operand, spine};

    /// The operand of the operator that stands first; none of a number or a variable.
    #[tactic(auto, unfolding(crate::specs::ExpressionView::expr_of), using(crate::proofs::Operators::operands_of_parts))]
    fn first_operand(&self) -> Option<&Expr>
        ensures { option_map (λ e. expr_of e.now) result ≡ first_operand (expr_of self.now) }
    {
        match self {
            Expr::Number { .. } | Expr::Variable { .. } => None,
            Expr::Unary { of, .. } => Some(of),
            Expr::Binary { left, .. } => Some(left),
        }
    }

    /// The left spine: the expression, its first operand, the first operand of that, and so on down to a number or a variable.
    pub fn left_spine(&self, alloc: Global) -> Result<Vec<&Expr>, AllocError>
        ensures { IfOk result (λ parts. parts_of parts.items ≡ spine (expr_of self.now)) }
    {
        let mut parts = vec![in alloc; self]?;
        let mut part = self;
        while let Some(operand) = part.first_operand() {
            parts.push(operand)?;
            part = operand;
        }
        Ok(parts)
    }

    /// Whether the variable at this position stands in the expression.
    #[tactic(auto, unfolding(crate::specs::ExpressionView::expr_of, crate::specs::Uses::uses), using(crate::proofs::Operators::uses_of_parts))]
    pub fn uses(&self, index: usize) -> bool
        ensures { result ≡ uses (expr_of self.now) index }
    {
        match self {
            Expr::Number { .. } => false,
            Expr::Variable { index: variable } => *variable == index,
            Expr::Unary { of, .. } => of.uses(index),
            Expr::Binary { left, right, .. } => left.uses(index) || right.uses(index),
        }
    }
}
