//! Laws on the audit of texts.
//!
//! Each function carries laws about the definitions in `specs/` of this crate and those below. None does anything when it runs.
#![tactic(auto)]

ghost use Rattle.std.specs.Prelude.{◌≡◌, None, List, ℕ};
ghost use Rattle.sql_audit.specs.Report.{IsRefused, IsReported};
ghost use Rattle.sql_audit.specs.declared.error.AuditError.{AuditError};
ghost use Rattle.sql_audit.specs.declared.error.AuditError.TheVariants.{NoMemory};
ghost use Rattle.sql_audit.specs.declared.report.AuditReport.{AuditReport};
ghost use Rattle.sql_audit_law.specs.Own.{IsOwnReport};
ghost use Rattle.sql_dialect.specs.declared.backend.Dialect.{Dialect};
ghost use Rattle.sql_node.specs.Pieces.{pieces};
ghost use Rattle.sql_node.specs.Tree.{Statement};
ghost use Rattle.sql_pass.specs.Pieces.{text_of};
ghost use Rattle.sql_rules.specs.Counted.{PlacesAreCounted};
ghost use Rattle.sql_rules.specs.Rules.{Accepted};
ghost use Rattle.sql_schema.specs.Declarations.{Declarations};
ghost use Rattle.sql_schema.specs.Refusals.{least_refusal};
ghost use Rattle.sql_schema.specs.declared.declaration.TableDecl.{TableDecl};

/// A text has one answer: one report, or one refusal, memory aside.
pub fn one_answer()
    ensures report { (d : Dialect) (ts : List TableDecl) (text : List ℕ) (r s : AuditReport)
        → IsReported d ts text r
        → IsReported d ts text s
        → r ≡ s }
    ensures not_both { (d : Dialect) (ts : List TableDecl) (text : List ℕ) (r : AuditReport) (e : AuditError)
        → IsReported d ts text r
        → IsRefused d ts text e
        → e ≡ NoMemory }
{}

/// The text of a statement that breaks no rule has a report: the table of each of its leaves, and of each column that is written
/// in it its own source.
pub fn accepted_are_reported()
    ensures { (schema : Declarations) (d : Dialect) (s : Statement) → least_refusal schema ≡ None
        → PlacesAreCounted s
        → Accepted schema d s
        → (r : AuditReport) × IsReported d schema.tables (text_of d 0 (pieces d s)) r
        × IsOwnReport d s r }
{}
