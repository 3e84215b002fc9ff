// Questions to the kiosk's pile, and what it says.
use crate::writes::yes_or_no;
use model::kind::Kind;
use model::labels::Labels;
use model::ladder::Ladder;
use model::mask::Right;
use model::stamp::{Stamp, Value};
use rulings::pile::{FilterMasks, four_filters};
use rulings::question::Question;
use rulings::ruling::ask;
use std::io;
use words::InWords;

// The grade of the row, the grade of the column, and the right.
const QUESTIONS: [(Option<Value>, Option<Value>, Right); 7] = [
    (Some(3), Some(1), 0),
    (Some(1), Some(1), 0),
    (Some(1), Some(3), 0),
    (Some(1), Some(3), 1),
    (None, Some(1), 0),
    (Some(3), Some(1), 2),
    (Some(3), Some(1), 16),
];

fn of_grade(kind: Kind, grade: Option<Value>) -> Stamp {
    Stamp {
        kind,
        attributes: [grade, None, None, None],
    }
}

// The cell holds rights 0 and 1, and right 0 goes by the grade.
pub(crate) fn show_pile(rt: &HostRuntime) -> io::Result<()> {
    println!(rt; "the pile, with right 0 filtered by attribute 0, over a cell 0003:")?;
    let masks = FilterMasks {
        each: [0x0001, 0, 0, 0],
    };
    let pile = four_filters::<Ladder, Labels, Labels, Ladder>(masks);
    for (row, column, right) in QUESTIONS {
        let question = Question {
            row: 0,
            column: 1,
            right,
            row_stamp: of_grade(Kind::Subject, row),
            column_stamp: of_grade(Kind::Object, column),
            cell: 0x0003,
        };
        let answer = yes_or_no(ask(&pile, &question));
        let above = InWords(row);
        let below = InWords(column);
        println!(rt; "  right {right}, grade {above} to grade {below}: {answer}")?;
    }
    Ok(())
}
