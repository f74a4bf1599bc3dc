ghost use Rattle.std.specs.Prelude.{◌≡◌};
ghost use Rattle.sql_dialect.specs.Names as named;

/// The form in which an insert says what becomes of a row that is there already.
#[derive(Debug, Clone, Copy, PartialEq, Eq)]
pub enum OnConflictClause {
    DoesNotSupportOnConflictClause,
}

impl OnConflictClause {
    /// The name of the variant.
    pub fn name(&self) -> &'static str
        ensures { result.now ≡ named.on_conflict_clause self.now }
    {
        match self {
            OnConflictClause::DoesNotSupportOnConflictClause => "DoesNotSupportOnConflictClause",
        }
    }
}

/// Whether an insert, update or delete may give the rows that it changed.
#[derive(Debug, Clone, Copy, PartialEq, Eq)]
pub enum ReturningClause {
    PgLikeReturningClause,
    DoesNotSupportReturningClause,
}

impl ReturningClause {
    /// The name of the variant.
    pub fn name(&self) -> &'static str
        ensures { result.now ≡ named.returning_clause self.now }
    {
        match self {
            ReturningClause::PgLikeReturningClause => "PgLikeReturningClause",
            ReturningClause::DoesNotSupportReturningClause => "DoesNotSupportReturningClause",
        }
    }

    /// Whether there is a RETURNING clause.
    pub fn supported(&self) -> bool
        ensures { result ≡ named.has_returning_clause self.now }
    {
        match self {
            ReturningClause::PgLikeReturningClause => true,
            ReturningClause::DoesNotSupportReturningClause => false,
        }
    }
}

/// Whether `DEFAULT` may stand for a column's value in an insert.
#[derive(Debug, Clone, Copy, PartialEq, Eq)]
pub enum InsertWithDefaultKeyword {
    IsoSqlDefaultKeyword,
    DoesNotSupportDefaultKeyword,
}

impl InsertWithDefaultKeyword {
    /// The name of the variant.
    pub fn name(&self) -> &'static str
        ensures { result.now ≡ named.insert_with_default_keyword self.now }
    {
        match self {
            InsertWithDefaultKeyword::IsoSqlDefaultKeyword => "IsoSqlDefaultKeyword",
            InsertWithDefaultKeyword::DoesNotSupportDefaultKeyword =>
                "DoesNotSupportDefaultKeyword",
        }
    }

    /// Whether there is a keyword DEFAULT.
    pub fn supported(&self) -> bool
        ensures { result ≡ named.has_insert_with_default_keyword self.now }
    {
        match self {
            InsertWithDefaultKeyword::IsoSqlDefaultKeyword => true,
            InsertWithDefaultKeyword::DoesNotSupportDefaultKeyword => false,
        }
    }
}

/// Whether one insert takes several rows.
#[derive(Debug, Clone, Copy, PartialEq, Eq)]
pub enum BatchInsertSupport {
    DoesNotSupportBatchInsert,
    PostgresLikeBatchInsertSupport,
}

impl BatchInsertSupport {
    /// The name of the variant.
    pub fn name(&self) -> &'static str
        ensures { result.now ≡ named.batch_insert_support self.now }
    {
        match self {
            BatchInsertSupport::DoesNotSupportBatchInsert => "DoesNotSupportBatchInsert",
            BatchInsertSupport::PostgresLikeBatchInsertSupport => "PostgresLikeBatchInsertSupport",
        }
    }

    /// Whether several rows may be inserted at once.
    pub fn supported(&self) -> bool
        ensures { result ≡ named.has_batch_insert_support self.now }
    {
        match self {
            BatchInsertSupport::DoesNotSupportBatchInsert => false,
            BatchInsertSupport::PostgresLikeBatchInsertSupport => true,
        }
    }
}

/// How texts are joined.
#[derive(Debug, Clone, Copy, PartialEq, Eq)]
pub enum ConcatClause {
    ConcatWithPipesClause,
}

impl ConcatClause {
    /// The name of the variant.
    pub fn name(&self) -> &'static str
        ensures { result.now ≡ named.concat_clause self.now }
    {
        match self {
            ConcatClause::ConcatWithPipesClause => "ConcatWithPipesClause",
        }
    }
}

/// How a row of defaults is inserted.
#[derive(Debug, Clone, Copy, PartialEq, Eq)]
pub enum DefaultValueClauseForInsert {
    AnsiDefaultValueClause,
}

impl DefaultValueClauseForInsert {
    /// The name of the variant.
    pub fn name(&self) -> &'static str
        ensures { result.now ≡ named.default_value_clause_for_insert self.now }
    {
        match self {
            DefaultValueClauseForInsert::AnsiDefaultValueClause => "AnsiDefaultValueClause",
        }
    }
}

/// Whether a window frame may count groups of equal rows.
#[derive(Debug, Clone, Copy, PartialEq, Eq)]
pub enum WindowFrameClauseGroupSupport {
    NoGroupWindowFrameUnit,
    IsoGroupWindowFrameUnit,
}

impl WindowFrameClauseGroupSupport {
    /// The name of the variant.
    pub fn name(&self) -> &'static str
        ensures { result.now ≡ named.window_frame_clause_group_support self.now }
    {
        match self {
            WindowFrameClauseGroupSupport::NoGroupWindowFrameUnit => "NoGroupWindowFrameUnit",
            WindowFrameClauseGroupSupport::IsoGroupWindowFrameUnit => "IsoGroupWindowFrameUnit",
        }
    }
}

/// Whether an aggregate takes DISTINCT, a filter or an order.
#[derive(Debug, Clone, Copy, PartialEq, Eq)]
pub enum AggregateFunctionExpressions {
    NoAggregateFunctionExpressions,
    PostgresLikeAggregateFunctionExpressions,
}

impl AggregateFunctionExpressions {
    /// The name of the variant.
    pub fn name(&self) -> &'static str
        ensures { result.now ≡ named.aggregate_function_expressions self.now }
    {
        match self {
            AggregateFunctionExpressions::NoAggregateFunctionExpressions =>
                "NoAggregateFunctionExpressions",
            AggregateFunctionExpressions::PostgresLikeAggregateFunctionExpressions =>
                "PostgresLikeAggregateFunctionExpressions",
        }
    }
}

/// Whether a window frame may leave rows out.
#[derive(Debug, Clone, Copy, PartialEq, Eq)]
pub enum WindowFrameExclusionSupport {
    FrameExclusionSupport,
    NoFrameFrameExclusionSupport,
}

impl WindowFrameExclusionSupport {
    /// The name of the variant.
    pub fn name(&self) -> &'static str
        ensures { result.now ≡ named.window_frame_exclusion_support self.now }
    {
        match self {
            WindowFrameExclusionSupport::FrameExclusionSupport => "FrameExclusionSupport",
            WindowFrameExclusionSupport::NoFrameFrameExclusionSupport =>
                "NoFrameFrameExclusionSupport",
        }
    }
}

/// Whether a built-in window function asks for an order.
#[derive(Debug, Clone, Copy, PartialEq, Eq)]
pub enum BuiltInWindowFunctionRequireOrder {
    NoOrderRequired,
}

impl BuiltInWindowFunctionRequireOrder {
    /// The name of the variant.
    pub fn name(&self) -> &'static str
        ensures { result.now ≡ named.built_in_window_function_require_order self.now }
    {
        match self {
            BuiltInWindowFunctionRequireOrder::NoOrderRequired => "NoOrderRequired",
        }
    }
}
