use crate::Expr;
use sql_leaf::Direction;

/// An item of an order: `EXPR`, `{"asc":EXPR}` or `{"desc":EXPR}`.
#[cycle(syntax)]
pub struct OrderItem {
    pub expr: Expr,
    pub direction: Direction,
}

impl Drop for OrderItem {
    #[cycle(syntax)]
    fn drop(self) {
        let OrderItem {
            expr: _,
            direction: _,
        } = self;
    }
}
