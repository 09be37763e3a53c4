// The worksheet: a table of readings with the matrix of their cells, a table of visits, and the steps on them.
ghost use Rattle.std.specs.Prelude.{◌≡◌};
ghost use Rattle.std.specs.Result.{result_unwrap_or};
ghost use Rattle.storagedemo.specs.Records.{reading_order, bare_reading};
ghost use Rattle.tables.specs.Rows.{put_answer, put_rows, drop_answer, drop_rows, plain};

use crate::records::{Amount, Code, Reading, Visit};
use refusals::Fault;
use std::fmt;
use tables::table::{OrderedTable, Record, drop_in, find_in, put_in};
use triangle::cell::{Cell, get_cell, set_cell};
use triangle::moves::{close_rank, open_rank};
use triangle::row::{Element, FileMatrix, Side, clear_row, fill_row};

#[derive(Clone, Copy)]
pub struct Sheet {
    readings: [Reading; 4],
    used: usize,
    visits: [Visit; 3],
    seen: usize,
    cells: [Amount; 10],
    row: [u32; 4],
}

#[derive(Clone, Copy)]
pub enum Step {
    PutReading(Reading),
    DropReading(Code),
    SetCell(Code, Code, Amount),
    State(Side, [Reading; 3], [Element<Amount>; 6]),
    PutVisit(Visit),
    DropVisit(Visit),
}

impl Sheet {
    pub fn blank() -> Sheet {
        Sheet {
            readings: [<Reading as Record>::blank(); 4],
            used: 0,
            visits: [<Visit as Record>::blank(); 3],
            seen: 0,
            cells: [<Amount as Cell>::zero(); 10],
            row: [0; 4],
        }
    }

    // Performs the step.
    pub fn replay(&mut self, step: Step) -> Result<(), Fault> {
        match step {
            Step::PutReading(r) => self.put_reading(r),
            Step::DropReading(code) => self.drop_reading(&Reading { code, number: 0 }),
            Step::SetCell(a, b, amount) => {
                let i = self.rank_of(a)?;
                let j = self.rank_of(b)?;
                set_cell(&mut self.cells, i, j, amount)
            }
            Step::State(side, order, elements) => self.state(side, &order, &elements),
            Step::PutVisit(v) => {
                let mut table = OrderedTable::over(&mut self.visits, self.seen);
                let done = table.put(v);
                self.seen = table.used();
                done
            }
            Step::DropVisit(v) => {
                let mut table = OrderedTable::over(&mut self.visits, self.seen);
                let done = table.remove(&v);
                self.seen = table.used();
                done
            }
        }
    }

    // Puts a reading; a new one gets a rank of the matrix with zero cells.
    fn put_reading(&mut self, r: Reading) -> Result<(), Fault>
        ensures answer { result ≡ plain (put_answer reading_order r self.old.used self.old.readings) }
        ensures rows { self.new.readings ≡ put_rows reading_order r self.old.used self.old.readings }
        ensures used { self.new.used ≡ result_unwrap_or (put_answer reading_order r self.old.used self.old.readings) self.old.used }
    {
        let before = self.used;
        let place = find_in(&self.readings, before, &r);
        self.used = put_in(&mut self.readings, before, r)?;
        if let Err(rank) = place {
            let _ = open_rank(&mut self.cells, before, rank);
        }
        Ok(())
    }

    // Drops the reading of r's code, and its rank of the matrix.
    fn drop_reading(&mut self, r: &Reading) -> Result<(), Fault>
        ensures answer { result ≡ plain (drop_answer reading_order r.now self.old.used self.old.readings) }
        ensures rows { self.new.readings ≡ drop_rows reading_order bare_reading r.now self.old.used self.old.readings }
        ensures used { self.new.used ≡ result_unwrap_or (drop_answer reading_order r.now self.old.used self.old.readings) self.old.used }
    {
        let before = self.used;
        let place = find_in(&self.readings, before, r);
        self.used = drop_in(&mut self.readings, before, r)?;
        if let Ok(rank) = place {
            let _ = close_rank(&mut self.cells, before, rank);
        }
        Ok(())
    }

    // The rank of the reading of a code.
    fn rank_of(&self, code: Code) -> Result<usize, Fault> {
        find_in(&self.readings, self.used, &Reading { code, number: 0 }).map_err(
            |_| Fault::RecordAbsent,
        )
    }

    // States the elements of a file whose readings come in that order, up to a fault.
    fn state(
        &mut self,
        side: Side,
        order: &[Reading],
        elements: &[Element<Amount>],
    ) -> Result<(), Fault> {
        fill_row(&mut self.row, &self.readings, self.used, order)?;
        let file = FileMatrix {
            ranks: &self.row,
            count: order.len(),
            side,
        };
        let taken = file.state_all(&mut self.cells, elements);
        clear_row(&mut self.row);
        if taken == elements.len() {
            Ok(())
        } else {
            Err(Fault::WrongCell)
        }
    }
}

// What the sheet holds, a line for each table and for each row of the matrix.
impl fmt::Display for Sheet {
    fn fmt<W: fmt::Write>(&self, f: &mut fmt::Formatter<W>) -> fmt::Result {
        write!(f, "  readings:")?;
        for r in &self.readings {
            write!(f, " {r}")?;
        }
        write!(f, "\n  visits:")?;
        for v in &self.visits {
            write!(f, " {v}")?;
        }
        writeln!(f)?;
        for i in 0..self.readings.len() {
            write!(f, "  ")?;
            for j in 0..self.readings.len() {
                if let Some(cell) = get_cell(&self.cells, i, j) {
                    let value = cell.value;
                    write!(f, "{value:>5}")?;
                }
            }
            writeln!(f)?;
        }
        Ok(())
    }
}
