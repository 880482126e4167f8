use sqlite_items::{Boxed, Items};
use std::marker::Model;

/// A name, in lower case: 1 to 48 of a-z, 0-9 and `_`, a letter first. Where a column of a SELECT stands it may be
/// `_rev`.
pub type Name = Items<u8>;

/// A value as it is written.
#[derive(Drop)]
pub enum Literal {
    /// `NULL`
    Null,
    /// `TRUE` or `FALSE`
    Boolean(bool),
    /// A number of 64 bits with a sign.
    Integer(i64),
    /// The octets of a text, each doubled quote made one.
    Text(Items<u8>),
    /// The octets that hex digits say.
    Blob(Items<u8>),
}

/// What a column holds.
#[derive(Clone, Copy)]
pub enum DeclaredType {
    /// Numbers of 64 bits with a sign.
    Integer,
    /// `TRUE` and `FALSE`.
    Boolean,
    /// Texts of at most so many octets, 1 to 1024.
    Varchar(u64),
    /// Octets, at most so many, 1 to 1024.
    Blob(u64),
}

/// A column of a new table.
#[derive(Drop)]
pub struct ColumnDefinition {
    /// Its name.
    pub name: Name,
    /// What it holds.
    pub holds: DeclaredType,
    /// Whether it is `NOT NULL`.
    pub not_null: bool,
}

/// How two operands are compared.
#[derive(Clone, Copy)]
pub enum Operator {
    /// `=`
    Equal,
    /// `<>` or `!=`
    Unequal,
    /// `<`
    Less,
    /// `<=`
    AtMost,
    /// `>`
    Greater,
    /// `>=`
    AtLeast,
}

/// One side of a comparison.
#[derive(Drop)]
pub enum Operand {
    /// The value of a column.
    Column(Name),
    /// A value as it is written.
    Literal(Literal),
}

/// Which rows are meant. Conditions stand in one another at most 64 deep, by `NOT` and parentheses.
#[derive(Drop)]
pub enum Condition {
    /// One of these holds. There are one or more.
    Any(Items<Condition>),
    /// All of these hold. There are one or more.
    All(Items<Condition>),
    /// It doesn't hold.
    Not(Boxed<Condition>),
    /// Two operands compare so.
    Compare {
        /// What stands on the left.
        left: Operand,
        /// How they compare.
        operator: Operator,
        /// The place of the operator's first octet in the text.
        at: usize,
        /// What stands on the right.
        right: Operand,
    },
    /// A column is `NULL`, or isn't.
    Nullness {
        /// The column.
        column: Name,
        /// Whether it is `IS NOT NULL`.
        negated: bool,
    },
}

/// How many transactions a SELECT reads after.
#[derive(Clone, Copy)]
pub enum Period {
    /// All of them.
    Now,
    /// One less than this number, which is at least 1.
    Before(u64),
    /// This number.
    Until(u64),
}

/// A column by which rows are ordered.
#[derive(Drop)]
pub struct OrderTerm {
    /// The column.
    pub column: Name,
    /// Whether the greatest comes first.
    pub descending: bool,
}

/// A new table.
#[derive(Drop)]
pub struct CreateTable {
    /// Whether nothing is done where the table is there.
    pub if_not_exists: bool,
    /// Its name.
    pub table: Name,
    /// Its columns, 1 to 64, in order.
    pub columns: Items<ColumnDefinition>,
    /// The columns of its primary key, at least one, in order.
    pub key: Items<Name>,
}

/// A new index.
#[derive(Drop)]
pub struct CreateIndex {
    /// Whether no two rows may have the same key in it.
    pub unique: bool,
    /// The table.
    pub table: Name,
    /// Its columns, at least one, in order.
    pub columns: Items<Name>,
}

/// Rows that are written.
#[derive(Drop)]
pub struct Insertion {
    /// The table.
    pub table: Name,
    /// The columns that are given, at least one, in the order of the values.
    pub columns: Items<Name>,
    /// The values of each row, at least one row of at least one value. A row may have another number of values
    /// than there are columns.
    pub rows: Items<Items<Literal>>,
}

/// Rows that are deleted.
#[derive(Drop)]
pub struct Delete {
    /// The table.
    pub table: Name,
    /// Which rows; all where it is `None`.
    pub filter: Option<Boxed<Condition>>,
}

/// Rows that are asked for.
#[derive(Drop)]
pub struct Select {
    /// The columns that are shown, at least one; all where it is `None`.
    pub columns: Option<Items<Name>>,
    /// The table.
    pub table: Name,
    /// Whether each version of a row is asked for.
    pub history: bool,
    /// How many transactions it reads after.
    pub period: Period,
    /// Which rows; all where it is `None`.
    pub filter: Option<Boxed<Condition>>,
    /// By what they are ordered, before their primary key.
    pub order: Items<OrderTerm>,
    /// How many rows are kept at most; all where it is `None`.
    pub limit: Option<u64>,
    /// How many rows are dropped first; none where it is `None`.
    pub offset: Option<u64>,
}

/// What a statement says.
#[derive(Drop)]
pub enum Form {
    /// `CREATE TABLE`
    CreateTable(CreateTable),
    /// `CREATE INDEX`
    CreateIndex(CreateIndex),
    /// `UPSERT`: rows that are there are replaced.
    Upsert(Insertion),
    /// `INSERT`: no row may be there.
    Insert(Insertion),
    /// `DELETE`
    Delete(Delete),
    /// `SELECT`
    Select(Select),
}

/// A statement of the grammar, whose parts are what the grammar lets them be (`IsStatement`). A clause sees what it
/// says.
#[derive(Drop)]
pub struct Stmt {
    form: Form,
}

impl Model for Stmt {
    ghost use Rattle.std.specs.Coded.{codes};
    ghost use Rattle.im_sqlparse.specs.contracts.statements.Condition as condition;
    ghost use Rattle.im_sqlparse.specs.declared.statements.Form.{Form};
    ghost use Rattle.im_sqlparse.specs.Formed.{IsStatement};

    ghost Value = { Form };

    ghost coded = { Prim.hlevel (codes, condition.the_row.coded) };

    ghost view = { λ s. s.form };

    ghost invariant = { λ s. IsStatement s.form };
}

impl Stmt {
    ghost use Rattle.std.specs.Prelude.{◌≡◌};
    ghost use Rattle.im_sqlparse.specs.Formed.{IsStatement};

    // What was read.
    pub(crate) fn new(form: Form) -> Self
        requires { IsStatement form }
        ensures { result ≡ form }
    {
        Stmt { form }
    }

    /// What it says. It takes no memory.
    pub fn form(&self) -> &Form
        ensures value { result.now ≡ self.now }
        ensures formed { IsStatement self.now }
    {
        &self.form
    }
}
