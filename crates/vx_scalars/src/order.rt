//! The laws of the order of rows, as a contract.
ghost use Rattle.std.specs.Cmp.{IsTotalOrder};
ghost use Rattle.vx_rows.specs.Order.{row_cmp};
ghost use Rattle.vx_scalars.specs.Orders.{IsExact};

/// Rows have a total order, in which only equal rows are called equal.
pub fn order_laws()
    ensures total { IsTotalOrder row_cmp }
    ensures exact { IsExact row_cmp }
{}
