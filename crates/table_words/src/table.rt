// A certificate as a table: its stamps down and across, and in the cells what each is allowed on each.
ghost use Rattle.std.specs.Prelude.{Some};
ghost use Rattle.certificates.specs.Views.{certificate_of};
ghost use Rattle.table_words.specs.Tables.{head_words, heads, cells, row_words, rows, table_words};

use crate::rights::CellWords;
use certificates::certificate::Certificate;
use model::stamp::Stamp;
use std::fmt;
use words::InWords;

// A stamp without its left border.
#[derive(Clone, Copy)]
struct HeadWords(Stamp);

impl fmt::Display for HeadWords {
    ghost output = { λ h. Some (head_words h.0) };

    fn fmt<W: fmt::Write>(&self, f: &mut fmt::Formatter<W>) -> fmt::Result {
        write!(f, " {} |", InWords(self.0))
    }
}

#[derive(Drop)]
struct Heads<'a>(&'a [Stamp]);

impl fmt::Display for Heads<'_> {
    ghost output = { λ h. Some (heads h.0.now) };

    fn fmt<W: fmt::Write>(&self, f: &mut fmt::Formatter<W>) -> fmt::Result {
        for stamp in self.0 {
            write!(f, "{}", HeadWords(*stamp))?;
        }
        Ok(())
    }
}

// What a stamp is allowed on each stamp.
#[derive(Drop)]
struct Cells<'a> {
    certificate: &'a Certificate,
    row: Stamp,
}

impl fmt::Display for Cells<'_> {
    ghost output = { λ c. Some (cells (certificate_of c.certificate.now) c.row) };

    fn fmt<W: fmt::Write>(&self, f: &mut fmt::Formatter<W>) -> fmt::Result {
        for column in self.certificate.stamps() {
            let mask = self.certificate.allows(&self.row, column);
            write!(f, "{}", CellWords(mask))?;
        }
        Ok(())
    }
}

// The line of one stamp.
#[derive(Drop)]
struct RowWords<'a> {
    certificate: &'a Certificate,
    row: Stamp,
}

impl fmt::Display for RowWords<'_> {
    ghost output = { λ r. Some (row_words (certificate_of r.certificate.now) r.row) };

    fn fmt<W: fmt::Write>(&self, f: &mut fmt::Formatter<W>) -> fmt::Result {
        let RowWords { certificate, row } = *self;
        let head = HeadWords(row);
        let cells = Cells { certificate, row };
        writeln!(f, "|{head}{cells}")
    }
}

#[derive(Drop)]
struct Rows<'a>(&'a Certificate);

impl fmt::Display for Rows<'_> {
    ghost output = { λ r. Some (rows (certificate_of r.0.now)) };

    fn fmt<W: fmt::Write>(&self, f: &mut fmt::Formatter<W>) -> fmt::Result {
        let certificate = self.0;
        for stamp in certificate.stamps() {
            let row = *stamp;
            write!(f, "{}", RowWords { certificate, row })?;
        }
        Ok(())
    }
}

// The stamps across, then a line for each; the last line is `end`, without a line break.
#[derive(Drop)]
pub struct TableWords<'a>(pub &'a Certificate);

impl fmt::Display for TableWords<'_> {
    ghost output = { λ t. Some (table_words (certificate_of t.0.now)) };

    fn fmt<W: fmt::Write>(&self, f: &mut fmt::Formatter<W>) -> fmt::Result {
        let heads = Heads(self.0.stamps());
        let rows = Rows(self.0);
        write!(f, "| |{heads}\n{rows}end")
    }
}
