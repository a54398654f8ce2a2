// Admitting a table with rows lent for it.
#![tactic(auto)]

ghost use Rattle.std.specs.Prelude.{◌≡◌, IfOk};
ghost use Rattle.judge.specs.AdmissionLaws.{AdmitAcceptsExactlyLocalRows, JudgeLeavesRowsThatAdmitAccepts};
ghost use Rattle.admit.specs.Admissions.{admission};
ghost use Rattle.admit.specs.Laws.{Right, PassesExactlyRightRows};

use judge::check_rules;
use local::Admission;
use rows::row::Row;
use rules::fault::TableFault;
use sheet::table::Table;

mod height;
mod local;

// A table whose rows were admitted. Only `admit` makes one, and while it stands the lists cannot be written.
#[derive(Drop)]
pub struct Passed<'a> {
    table: Table<'a>,
    rows: &'a [Row],
}

impl<'a> Passed<'a> {
    pub fn table(&self) -> Table<'a>
        ensures { result ≡ self.now.table }
    {
        self.table
    }

    pub fn rows(&self) -> &'a [Row]
        ensures { result ≡ self.now.rows }
    {
        self.rows
    }
}

// Reads the rows of a table, one record for each instruction; records past these are ignored. First the rules of tables are
// asked, then rows enough, then the rules of operands, and then the rows.
pub fn admit<'a>(table: Table<'a>, rows: &'a [Row]) -> Result<Passed<'a>, TableFault>
    ensures value { result ≡ admission table.entry rows.entry }
    ensures right { IfOk result Right }
    ensures passes { PassesExactlyRightRows }
    ensures exact { AdmitAcceptsExactlyLocalRows }
    ensures judged { JudgeLeavesRowsThatAdmitAccepts }
{
    check_rules(table, rows.len())?;
    let admission = Admission {
        table,
        rows: &rows[..table.code.len()],
    };
    admission.check_rows()?;
    Ok(Passed { table, rows })
}
