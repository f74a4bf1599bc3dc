ghost use Rattle.std.specs.Prelude.{◌≡◌, IfOk, map, option_map};
ghost use Rattle.sql_expr.specs.Joining.{side_tree};
ghost use Rattle.sql_node.specs.View.{expr_tree, in_values_tree, order_item_tree, source_tree, statement_tree};
ghost use Rattle.sql_build_syntax.specs.Forms.{stands};
ghost use Rattle.sql_build_syntax.specs.View as written;
ghost use Rattle.sql_build.specs.Built.{call_in, calls_in, directed, expr_in, exprs_in, items_in, maybe_in, membership_in, side_of, source_in, statement_in};
ghost use Rattle.sql_build.specs.Made.{form_of};
ghost use Rattle.sql_build.specs.Named.{both, only_where};
ghost use Rattle.sql_build.specs.inside.Replaced.{started_in};

use crate::replaced::is_replaced;
use crate::{call, name, operator, source};
use sql_build_depth::{is_expr_too_deep, is_too_deep, is_too_deep_restricted};
use sql_build_syntax::{Call, Membership, Query, QueryStart};
use sql_dialect::Dialect;
use sql_expr::{Expr, InValues, JoinRhs, OrderItem, Source, Statement, count_star};
use sql_schema::{NoMemory, Schema};
use std::alloc::{AllocError, Global};

/// The statement that the query stands for, its names looked up in the schema and its calls made in their order. `into_boxed`
/// without a dialect boxes for this one. None where the query names a table or a column that the schema lacks, in a join, a
/// subselect or a side of a combination too; and where a call does not stand on the form that the calls before it give.
///
/// A query that nests deeper than `MAX_DEPTH` of `sql_build_depth` is NoMemory: what builds, checks, writes and drops its statement recurses
/// over it, and the stack may not suffice.
pub fn statement(
    alloc: Global,
    schema: &Schema,
    dialect: Dialect,
    query: &Query,
) -> Result<Option<Statement>, NoMemory>
    ensures { IfOk result (λ o. option_map statement_tree o
        ≡ statement_in schema.now dialect (written.query_tree query.now)) }
{
    if is_too_deep(query) {
        return Err(AllocError);
    }
    let builder = Builder {
        alloc,
        schema,
        dialect,
    };
    builder.query(query)
}

/// As `statement`, of a query whose statement a guard restricts. The guard makes it deeper, so one that nests deeper than `MAX_DEPTH` with a
/// level for each table that a select reads is NoMemory.
pub fn statement_to_restrict(
    alloc: Global,
    schema: &Schema,
    dialect: Dialect,
    query: &Query,
) -> Result<Option<Statement>, NoMemory>
    ensures { IfOk result (λ o. option_map statement_tree o
        ≡ statement_in schema.now dialect (written.query_tree query.now)) }
{
    if is_too_deep_restricted(query) {
        return Err(AllocError);
    }
    statement(alloc, schema, dialect, query)
}

/// The expression that is written, its names looked up in the schema. None where it names a table or a column that the schema lacks, in a
/// subselect too; and where a call in a subselect does not stand on the form that the calls before it give. One that nests deeper than
/// `MAX_DEPTH` is NoMemory.
pub fn expression(
    alloc: Global,
    schema: &Schema,
    dialect: Dialect,
    expr: &sql_build_syntax::Expr,
) -> Result<Option<Expr>, NoMemory>
    ensures { IfOk result (λ o. option_map expr_tree o
        ≡ expr_in schema.now dialect (written.expr_tree expr.now)) }
{
    if is_expr_too_deep(expr) {
        return Err(AllocError);
    }
    let builder = Builder {
        alloc,
        schema,
        dialect,
    };
    builder.expr(expr)
}

/// Makes nodes of what is written, for a dialect.
#[derive(Clone, Copy)]
struct Builder<'a> {
    alloc: Global,
    schema: &'a Schema,
    dialect: Dialect,
}

impl Builder<'_> {
    #[cycle(build)]
    #[tactic(auto, using(sql_build_syntax::proofs::Trees::opens_expr))]
    fn expr(self, expr: &sql_build_syntax::Expr) -> Result<Option<Expr>, NoMemory>
        ensures { IfOk result (λ o. option_map expr_tree o
            ≡ expr_in self.entry.schema.now self.entry.dialect (written.expr_tree expr.now)) }
    {
        match expr {
            sql_build_syntax::Expr::List(exprs) => {
                let exprs = self.exprs(exprs.as_slice())?;
                Ok(operator::list(exprs))
            }
            sql_build_syntax::Expr::CountStar => Ok(Some(count_star())),
            sql_build_syntax::Expr::Column(name) => name::column(self.alloc, self.schema, name),
            sql_build_syntax::Expr::Field(name) => name::field(self.alloc, self.schema, name),
            sql_build_syntax::Expr::Bind(ty, value) => {
                Ok(Some(operator::bind(self.alloc, *ty, value)?))
            }
            sql_build_syntax::Expr::Unary(by, operand) => {
                let operand = self.expr(operand)?;
                operator::unary(self.alloc, *by, operand)
            }
            sql_build_syntax::Expr::Binary(by, left, right) => {
                let left = self.expr(left)?;
                let right = self.expr(right)?;
                operator::binary(self.alloc, *by, left, right)
            }
            sql_build_syntax::Expr::Exists(query) => {
                let statement = self.query(query)?;
                operator::existence(self.alloc, statement)
            }
            sql_build_syntax::Expr::SingleValue(query) => {
                let statement = self.query(query)?;
                operator::single_value(self.alloc, statement)
            }
            sql_build_syntax::Expr::Quantified(by, sought, among) => {
                let sought = self.expr(sought)?;
                let among = self.membership(among)?;
                operator::quantified(self.alloc, *by, sought, among)
            }
        }
    }

    #[cycle(build)]
    #[tactic(auto, using(crate::proofs::Front::fronts))]
    fn exprs(self, exprs: &[sql_build_syntax::Expr]) -> Result<Option<Vec<Expr>>, NoMemory>
        ensures { IfOk result (λ o. option_map (λ v. map expr_tree v.items) o
            ≡ exprs_in self.entry.schema.now self.entry.dialect
            (written.exprs_of (map written.expr_tree exprs.now))) }
    {
        let mut all = Vec::new(self.alloc);
        for expr in exprs {
            match self.expr(expr)? {
                None => return Ok(None),
                Some(expr) => all.push(expr)?,
            }
        }
        Ok(Some(all))
    }

    #[cycle(build)]
    #[tactic(auto, using(sql_build_syntax::proofs::Trees::opens_membership))]
    fn membership(self, membership: &Membership) -> Result<Option<InValues>, NoMemory>
        ensures { IfOk result (λ o. option_map in_values_tree o
            ≡ membership_in self.entry.schema.now self.entry.dialect
            (written.membership_tree membership.now)) }
    {
        match membership {
            Membership::Values(ty, values) => {
                let values = operator::among_values(self.alloc, *ty, values.as_slice())?;
                Ok(Some(values))
            }
            Membership::Rows(query) => {
                let statement = self.query(query)?;
                operator::among_rows(self.alloc, statement)
            }
        }
    }

    #[cycle(build)]
    #[tactic(auto, using(sql_build_syntax::proofs::Trees::opens_order_item, sql_node::proofs::Trees::opens_order_item))]
    fn item(self, item: &sql_build_syntax::OrderItem) -> Result<Option<OrderItem>, NoMemory>
        ensures { IfOk result (λ o. option_map order_item_tree o
            ≡ option_map (directed (written.order_item_tree item.now).1)
            (expr_in self.entry.schema.now self.entry.dialect
            (written.order_item_tree item.now).0)) }
    {
        match self.expr(&item.expr)? {
            None => Ok(None),
            Some(expr) => Ok(Some(OrderItem {
                expr,
                direction: item.direction,
            })),
        }
    }

    #[cycle(build)]
    #[tactic(auto, using(crate::proofs::Front::fronts))]
    fn items(
        self,
        items: &[sql_build_syntax::OrderItem],
    ) -> Result<Option<Vec<OrderItem>>, NoMemory>
        ensures { IfOk result (λ o. option_map (λ v. map order_item_tree v.items) o
            ≡ items_in self.entry.schema.now self.entry.dialect
            (written.items_of (map written.order_item_tree items.now))) }
    {
        let mut all = Vec::new(self.alloc);
        for item in items {
            match self.item(item)? {
                None => return Ok(None),
                Some(item) => all.push(item)?,
            }
        }
        Ok(Some(all))
    }

    #[cycle(build)]
    #[tactic(auto, using(sql_build_syntax::proofs::Trees::opens_source))]
    fn source(self, source: &sql_build_syntax::Source) -> Result<Option<Source>, NoMemory>
        ensures { IfOk result (λ o. option_map source_tree o
            ≡ source_in self.entry.schema.now self.entry.dialect (written.source_tree source.now)) }
    {
        match source {
            sql_build_syntax::Source::Table(name) => name::table(self.alloc, self.schema, name),
            sql_build_syntax::Source::Alias(name) => name::alias(self.alloc, self.schema, name),
            sql_build_syntax::Source::Join(join) => self.join(join),
        }
    }

    #[cycle(build)]
    #[tactic(auto, using(sql_build_syntax::proofs::Trees::opens_join))]
    fn join(self, join: &sql_build_syntax::Join) -> Result<Option<Source>, NoMemory>
        ensures { IfOk result (λ o. option_map source_tree o
            ≡ source_in self.entry.schema.now self.entry.dialect (written.join_tree join.now)) }
    {
        let left = self.source(&join.left)?;
        let right = self.source(&join.right)?;
        let right = self.side(&join.on, right)?;
        source::joined(self.alloc, self.schema, join.kind, left, right)
    }

    /// The right side of a join: without a condition, that of a relation holds.
    #[cycle(build)]
    fn side(
        self,
        on: &Option<sql_build_syntax::Expr>,
        source: Option<Source>,
    ) -> Result<Option<JoinRhs>, NoMemory>
        ensures { IfOk result (λ o. option_map side_tree o
            ≡ both side_of (option_map source_tree source)
            (maybe_in self.entry.schema.now self.entry.dialect
            (written.maybe_of (option_map written.expr_tree on.now)))) }
    {
        match on {
            None => Ok(source::related(source)),
            Some(on) => {
                let on = self.expr(on)?;
                Ok(source::conditioned(source, on))
            }
        }
    }

    /// What a query begins with. The default selection is not made where a call replaces it.
    #[cycle(build)]
    #[tactic(auto, using(sql_build_syntax::proofs::Trees::opens_query_start))]
    fn start(self, start: &QueryStart, replaced: bool) -> Result<Option<Statement>, NoMemory>
        ensures { IfOk result (λ o. option_map statement_tree o
            ≡ started_in replaced self.entry.schema.now self.entry.dialect
            (written.query_start_tree start.now)) }
    {
        match start {
            QueryStart::From(source) => {
                let source = self.source(source)?;
                source::from(self.alloc, source, replaced)
            }
            QueryStart::Select(selection) => {
                let selection = self.expr(selection)?;
                Ok(source::selecting(selection))
            }
        }
    }

    #[cycle(build)]
    #[tactic(auto, using(sql_build_syntax::proofs::Trees::opens_query, crate::proofs::Overriding::query_alike))]
    fn query(self, query: &Query) -> Result<Option<Statement>, NoMemory>
        ensures { IfOk result (λ o. option_map statement_tree o
            ≡ statement_in self.entry.schema.now self.entry.dialect
            (written.query_tree query.now)) }
    {
        let calls = query.calls.as_slice();
        match self.start(&query.start, is_replaced(calls))? {
            None => Ok(None),
            Some(start) => self.calls(calls, start),
        }
    }

    #[cycle(build)]
    fn calls(self, calls: &[Call], start: Statement) -> Result<Option<Statement>, NoMemory>
        ensures { IfOk result (λ o. option_map statement_tree o
            ≡ calls_in self.entry.schema.now self.entry.dialect
            (written.calls_of (map written.call_tree calls.now)) (statement_tree start)) }
    {
        let mut statement = start;
        for call in calls {
            match self.call(call, statement)? {
                None => return Ok(None),
                Some(changed) => statement = changed,
            }
        }
        Ok(Some(statement))
    }

    #[cycle(build)]
    #[tactic(auto, using(sql_build_syntax::proofs::Trees::opens_call, crate::proofs::Standing::always))]
    fn call(self, call: &Call, statement: Statement) -> Result<Option<Statement>, NoMemory>
        ensures { IfOk result (λ o. option_map statement_tree o
            ≡ only_where
            (call_in self.entry.schema.now self.entry.dialect (written.call_tree call.now)
            (statement_tree statement))
            (stands (form_of (statement_tree statement)) (written.call_tree call.now))) }
    {
        match call {
            Call::Plain(by) => call::plain(self.alloc, *by, statement),
            Call::Clause(by, expr) => {
                let expr = self.expr(expr)?;
                call::clause(self.alloc, *by, expr, statement)
            }
            Call::Join(kind, source, on) => {
                let source = self.source(source)?;
                let right = self.side(on, source)?;
                call::join(self.alloc, self.schema, *kind, right, statement)
            }
            Call::Find(key) => {
                let key = self.exprs(key.as_slice())?;
                call::find(self.alloc, key, statement)
            }
            Call::Order(items) => {
                let items = self.items(items.as_slice())?;
                Ok(call::order(items, statement))
            }
            Call::ThenOrderBy(items) => {
                let items = self.items(items.as_slice())?;
                call::then_order_by(self.alloc, items, statement)
            }
            Call::Limit(limit) => Ok(Some(call::limit(*limit, statement))),
            Call::Offset(offset) => Ok(Some(call::offset(*offset, statement))),
            Call::IntoBoxed(dialect) => {
                let dialect = dialect.unwrap_or(self.dialect);
                Ok(call::into_boxed(dialect, statement))
            }
            Call::Combine(by, rule, query) => {
                let right = self.query(query)?;
                call::combine(self.alloc, *by, *rule, right, statement)
            }
            Call::PositionalOrderBy(places) => {
                call::positional_order_by(self.alloc, places.as_slice(), statement)
            }
        }
    }
}
