// The register on small tables, by worksheets: full tables, tables of other lengths, and worksheets that are not understood.
#![tactic(auto)]

#[cfg(test)]
mod tests {
    use decimals::number::Number;
    use records::parameters::Parameter;
    use records::sites::Site;
    use records::spans::Span;
    use register::lent::{Register, Tables};
    use std::process::Abort;
    use std::test::Fail;
    use tables::table::Record;
    use triangle::cell::Cell;
    use worksheets::sheets::{replay, sheet_report};

    // Each table filled to its last place, one record more, and a record replaced; a place made free, and used again.
    const FILLING: &[u8] = b"put site
 GATE A  10001M001 P Quarry gate             12 30  0.0  -0 15  0.5   -12.5
put site
 SHFT A  10002M001 P Old shaft               12 31 14.2  -0 14 59.0     3.1
put site
 TOWR A  10003M001 P Water tower             12 29 47.9  -0 16 20.4    41.0
put site
 GATE A  10001M001 P Moved gate              12 30  0.1  -0 15  0.5   -12.5
put span
 GATE A  1    P 26:182:00000 26:213:00000 26:197:43200
put span
 SHFT A  1    P 26:182:00000 26:213:00000 26:197:43200
put span
 GATE A  1    P 26:182:00000 26:213:00000 26:198:00000
put estimate
     1 STAX   GATE A  1    26:197:43200 m    2  6.22654721441100E+06 1.50000E-03
put estimate
     2 STAY   GATE A  1    26:197:43200 m    2  1.38031450002100E+06 1.50000E-03
put estimate
     1 STAX   GATE A  1    26:197:43200 m    2  6.22654721803000E+06 1.20000E-03
put apriori
     1 STAX   GATE A  1    26:197:43200 m    2  6.22654721441100E+06 1.50000E-03
put apriori
     2 STAY   GATE A  1    26:197:43200 m    2  1.38031450002100E+06 1.50000E-03
put apriori
     1 STAX   GATE A  1    26:197:43200 m    2  6.22654721803000E+06 1.20000E-03
drop site
 SHFT A
put site
 TOWR A  10003M001 P Water tower             12 29 47.9  -0 16 20.4    41.0
";

    const FILLED: &[u8] = b"GRANTED
GRANTED
REFUSED 19 LINE 000000000
GRANTED
GRANTED
REFUSED 19 LINE 000000000
GRANTED
GRANTED
REFUSED 19 LINE 000000000
GRANTED
GRANTED
REFUSED 19 LINE 000000000
GRANTED
GRANTED
GRANTED
HOLDS 2 SITES 1 SPANS 1 ESTIMATES 1 APRIORIS
";

    const GATE: &[u8] = b"put site
 GATE A  10001M001 P Quarry gate             12 30  0.0  -0 15  0.5   -12.5
";

    // One of each call.
    const CALLS: &[u8] = b"set head COVA
%=SNX 2.02 AAA 26:300:00000 BBB 26:182:00000 26:213:00000 P 00000 2 S
put site
 SHFT A  10002M001 P Old shaft               12 31 14.2  -0 14 59.0     3.1
drop site
 GATE A
set cell
     1 UT     ---- -- ---- 26:197:43200
     1 UT     ---- -- ---- 26:197:43200
1
";

    const ALL_REFUSED: &[u8] = b"REFUSED 01 LINE 000000000
REFUSED 01 LINE 000000000
REFUSED 01 LINE 000000000
REFUSED 01 LINE 000000000
HOLDS 1 SITES 0 SPANS 0 ESTIMATES 0 APRIORIS
";

    // Places for two sites, and for one record of each other sort.
    #[derive(Drop)]
    struct Store {
        sites: [Site; 2],
        spans: [Span; 1],
        estimates: [Parameter; 1],
        aprioris: [Parameter; 1],
        cells: [Number; 1],
        row: [u32; 1],
    }

    fn blank_store() -> Store {
        Store {
            sites: [<Site as tables::table::Record>::blank(); 2],
            spans: [<Span as tables::table::Record>::blank(); 1],
            estimates: [<Parameter as tables::table::Record>::blank(); 1],
            aprioris: [<Parameter as tables::table::Record>::blank(); 1],
            cells: [<Number as Cell>::zero(); 1],
            row: [0; 1],
        }
    }

    // What is printed of the worksheet on a new register over small tables.
    fn check_report(
        rt: &(impl Abort + AllocGlobal),
        name: &str,
        sheet: &[u8],
        expected: &[u8],
    ) -> Result<(), Fail> {
        let mut store = blank_store();
        let mut tables = Tables {
            sites: &mut store.sites,
            spans: &mut store.spans,
            estimates: &mut store.estimates,
            aprioris: &mut store.aprioris,
            cells: &mut store.cells,
            row: &mut store.row,
        };
        let report = sheet_report(rt.alloc(), &mut tables, sheet)?;
        assert!(rt; report.as_slice() == expected, "{}", name);
        Ok(())
    }

    #[test]
    fn full_tables_refuse_and_replace(rt: HostRuntime) -> Result<(), Fail> {
        check_report(&rt, "filled to the last place", FILLING, FILLED)
    }

    #[test]
    fn worksheets_end_as_they_should(rt: HostRuntime) -> Result<(), Fail> {
        check_report(
            &rt,
            "nothing is asked for",
            b"",
            b"HOLDS 0 SITES 0 SPANS 0 ESTIMATES 0 APRIORIS\n",
        )?;
        check_report(
            &rt,
            "the last line lacks its end",
            b"put estimate\n     1 UT     ---- -- ---- 26:197:43200 ms   2 -12.5                 .01",
            b"GRANTED\nHOLDS 0 SITES 0 SPANS 1 ESTIMATES 0 APRIORIS\n",
        )?;
        check_report(
            &rt,
            "an empty line is an argument",
            b"drop site\n\n",
            b"REFUSED 05 LINE 000000000\nHOLDS 0 SITES 0 SPANS 0 ESTIMATES 0 APRIORIS\n",
        )
    }

    #[test]
    fn worksheets_are_told_where_they_are_unclear(rt: HostRuntime) -> Result<(), Fail> {
        check_report(
            &rt,
            "an empty line is no command",
            b"drop site\n GATE A\n\ndrop site\n GATE A\n",
            b"REFUSED 22 LINE 000000000\nNOT UNDERSTOOD LINE 3\nHOLDS 0 SITES 0 SPANS 0 ESTIMATES 0 APRIORIS\n",
        )?;
        check_report(
            &rt,
            "a blank more is no command",
            b"put site \n",
            b"NOT UNDERSTOOD LINE 1\nHOLDS 0 SITES 0 SPANS 0 ESTIMATES 0 APRIORIS\n",
        )?;
        check_report(
            &rt,
            "an argument is missing",
            b"set cell\none\ntwo\n",
            b"NOT UNDERSTOOD LINE 4\nHOLDS 0 SITES 0 SPANS 0 ESTIMATES 0 APRIORIS\n",
        )?;
        check_report(
            &rt,
            "every argument is missing",
            b"set head COVA",
            b"NOT UNDERSTOOD LINE 2\nHOLDS 0 SITES 0 SPANS 0 ESTIMATES 0 APRIORIS\n",
        )
    }

    #[test]
    fn making_keeps_to_the_triangle(rt: HostRuntime) -> Result<(), Fail> {
        let mut store = blank_store();
        let mut cells = [<Number as Cell>::zero(); 2];
        let mut tables = Tables {
            sites: &mut store.sites,
            spans: &mut store.spans,
            estimates: &mut store.estimates,
            aprioris: &mut store.aprioris,
            cells: &mut cells,
            row: &mut store.row,
        };
        let report = sheet_report(rt.alloc(), &mut tables, GATE)?;
        assert!(rt; report.as_slice() == b"REFUSED 01 LINE 000000000\n".as_slice());
        Ok(())
    }

    // A register over the store that holds the gate alone.
    fn gate_register(rt: &(impl Abort + AllocGlobal), store: &mut Store) -> Result<Register, Fail> {
        let mut tables = Tables {
            sites: &mut store.sites,
            spans: &mut store.spans,
            estimates: &mut store.estimates,
            aprioris: &mut store.aprioris,
            cells: &mut store.cells,
            row: &mut store.row,
        };
        let mut register = Register::make(&mut tables)?;
        let report = replay(rt.alloc(), &mut register, &mut tables, GATE)?;
        assert!(rt;
            report.as_slice()
                == b"GRANTED\nHOLDS 1 SITES 0 SPANS 0 ESTIMATES 0 APRIORIS\n".as_slice()
        );
        Ok(register)
    }

    #[test]
    fn a_site_less_is_refused(rt: HostRuntime) -> Result<(), Fail> {
        let mut store = blank_store();
        let mut register = gate_register(&rt, &mut store)?;
        let mut tables = Tables {
            sites: &mut store.sites[0..1],
            spans: &mut store.spans,
            estimates: &mut store.estimates,
            aprioris: &mut store.aprioris,
            cells: &mut store.cells,
            row: &mut store.row,
        };
        let report = replay(rt.alloc(), &mut register, &mut tables, CALLS)?;
        assert!(rt; report.as_slice() == ALL_REFUSED);
        // the gate stands in its place as it was put, and the other place is blank
        assert_eq!(rt; store.sites[0].longitude, 450_000);
        assert_eq!(rt; store.sites[1].longitude, 0);
        Ok(())
    }

    #[test]
    fn a_working_row_of_another_length_is_refused(rt: HostRuntime) -> Result<(), Fail> {
        let mut store = blank_store();
        let mut register = gate_register(&rt, &mut store)?;
        let mut tables = Tables {
            sites: &mut store.sites,
            spans: &mut store.spans,
            estimates: &mut store.estimates,
            aprioris: &mut store.aprioris,
            cells: &mut store.cells,
            row: &mut store.row[0..0],
        };
        let report = replay(rt.alloc(), &mut register, &mut tables, CALLS)?;
        assert!(rt; report.as_slice() == ALL_REFUSED);
        Ok(())
    }
}
