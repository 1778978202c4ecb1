// Document 01's cases through the real functions. Cases 1 to 8 pass by the definitions as one statement, proofs/Passed.antt.
// Before a case's first fill each column holds 9 throughout, and none of it is left after; so does the room for a text before it is printed.
// The columns are three arrays, as a fill is lent them.
#![tactic(auto)]

ghost use Rattle.std.specs.Prelude.{true, ◌↔◌, ◌≡◌};
ghost use Rattle.table.specs.Requests.{fill};
ghost use Rattle.table.specs.Demands.{onto};
ghost use Rattle.table.specs.Results.{result_of, result as due};
ghost use Rattle.table.specs.Tables.{columns};
ghost use Rattle.newick.specs.Results.{printed};
ghost use Rattle.cases.specs.Cases.{Fills, widest, three};

use std::io;
use std::io::Write;
use table::{Plan, Refusal};

// The figures file: case 9 and its neighbours.
mod files;

// The limit of the cases that are not about it: the highest, 2^60.
const LIMIT: u64 = 1152921504606846976;

fn main(rt: HostRuntime) -> io::Result<()> {
    case_1();
    case_2();
    case_3();
    case_4();
    case_5();
    case_6();
    case_7();
    case_8();
    files::case_9();
    case_10(&mut rt.stdout())?;
    files::first_lines();
    files::comments();
    files::shapes_of_size_lines();
    files::size_lines();
    files::shapes_of_entry_lines();
    files::entry_lines();
    files::ends();
    files::figures_read();
    files::no_figures();
    files::long_number();
    Ok(())
}

// One relation, at limit 0: its plan is itself.
fn case_1() {
    let mut sizes = [9; 2];
    let mut costs = [9; 2];
    let mut lefts = [9; 2];
    let found = table::fill(1, &[10], &[], 0, 0, &mut sizes, &mut costs, &mut lefts);
    check::expect(found == Ok(Plan { cost: 0, size: 10 }));
    check::expect(is_printed(1, &costs, &lefts, &mut [9; 2], b"1;"));
}

// The size is held at 4,294,967,295, and the cost is equal to it: that limit accepts, and one less gives 7. The size is still written then.
fn case_2() {
    let mut sizes = [9; 4];
    let mut costs = [9; 4];
    let mut lefts = [9; 4];
    let found = fill_widest(4294967295, &mut sizes, &mut costs, &mut lefts);
    let expected = Plan {
        cost: 4294967295,
        size: 4294967295,
    };
    check::expect(found == Ok(expected));
    let refused = fill_widest(4294967294, &mut sizes, &mut costs, &mut lefts);
    check::expect(refused == Err(Refusal::NoPlan));
    check::expect(sizes[3] == 4294967295);
    check::expect(costs[3] == u64::MAX);
    check::expect(lefts[3] == 0);
}

// A fill of case 2's two relations.
fn fill_widest(
    limit: u64,
    sizes: &mut [u32],
    costs: &mut [u64],
    lefts: &mut [u16],
) -> Result<Plan, Refusal>
    ensures { result_of result (widest limit).figures.counts (widest limit).figures.divisors sizes.new costs.new lefts.new
        ≡ due fill (onto (widest limit) (columns sizes.old costs.old lefts.old)) }
{
    table::fill(2, &[4294967295; 2], &[1], 0, limit, sizes, costs, lefts)
}

// The sizes, rounded up once, and the tree.
fn case_3() {
    let mut sizes = [9; 8];
    let mut costs = [9; 8];
    let mut lefts = [9; 8];
    let found = fill_three(&mut sizes, &mut costs, &mut lefts);
    check::expect(
        found
            == Ok(Plan {
                cost: 106,
                size: 86,
            }),
    );
    check::expect(sizes == [0, 10, 20, 20, 30, 300, 86, 86]);
    check::expect(is_printed(3, &costs, &lefts, &mut [9; 10], b"((1,2),3);"));
}

// A fill of case 3's three relations.
fn fill_three(sizes: &mut [u32], costs: &mut [u64], lefts: &mut [u16]) -> Result<Plan, Refusal>
    ensures { result_of result three.figures.counts three.figures.divisors sizes.new costs.new lefts.new
        ≡ due fill (onto three (columns sizes.old costs.old lefts.old)) }
{
    table::fill(3, &[10, 20, 30], &[10, 1, 7], 0, LIMIT, sizes, costs, lefts)
}

// Case 3 with relation 2's count edited to 2,000: relation 2 comes last now.
fn case_4() {
    let mut counts = [10, 20, 30];
    let divisors = [10, 1, 7];
    let mut sizes = [9; 8];
    let mut costs = [9; 8];
    let mut lefts = [9; 8];
    let _filled = fill_three(&mut sizes, &mut costs, &mut lefts);
    let found = table::edit_count(
        3,
        &mut counts,
        &divisors,
        0,
        LIMIT,
        &mut sizes,
        &mut costs,
        &mut lefts,
        2,
        2000,
    );
    check::expect(
        found
            == Ok(Plan {
                cost: 8872,
                size: 8572,
            }),
    );
    check::expect(counts[1] == 2000);
    check::expect(sizes == [0, 10, 2000, 2000, 30, 300, 8572, 8572]);
    check::expect(is_printed(3, &costs, &lefts, &mut [9; 10], b"(2,(1,3));"));
}

fn case_5() {
    check::expect(charges::w(0) == 0);
    check::expect(charges::w(1) == 1);
    check::expect(charges::w(200) == 1600);
    check::expect(charges::w(8000) == 104000);
}

fn case_6() {
    check::expect(charges::charge(2, 10, 20, 200) == Ok(42));
    check::expect(charges::charge(2, 0, 5, 0) == Ok(0));
}

// A relation of no rows is joined as any other.
fn case_7() {
    let mut sizes = [9; 4];
    let mut costs = [9; 4];
    let mut lefts = [9; 4];
    let found = table::fill(
        2,
        &[0, 5],
        &[1],
        0,
        LIMIT,
        &mut sizes,
        &mut costs,
        &mut lefts,
    );
    check::expect(found == Ok(Plan { cost: 0, size: 0 }));
}

// Case 3's text in a room that is a byte short, and in one that is just long enough.
fn case_8() {
    let mut sizes = [9; 8];
    let mut costs = [9; 8];
    let mut lefts = [9; 8];
    let _filled = fill_three(&mut sizes, &mut costs, &mut lefts);
    let mut short = [9; 9];
    let refused = newick::print(3, &costs, &lefts, &mut short);
    check::expect(refused == Err(newick::Refusal::ShortText));
    check::expect(short == [9; 9]);
    check::expect(is_printed(3, &costs, &lefts, &mut [9; 10], b"((1,2),3);"));
}

// The program's output for this input, printed: the gate holds it to the file `stdout`.
fn case_10<W: Write>(out: &mut W) -> io::Result<()> {
    let output = planner::reports::report(
        b"%%MatrixMarket matrix coordinate integer symmetric\n4 4 4\n1 1 10\n2 2 20\n3 3 30\n4 4 40\n",
    );
    out.write_all(&output.bytes[..output.length])
}

// Whether print answers with this text, which fills the room. The first four are print's own parameters.
fn is_printed(n: u32, costs: &[u64], lefts: &[u16], room: &mut [u8], text: &[u8]) -> bool
    ensures { (result ≡ true) ↔ Fills (printed n costs.now lefts.now room.old) text.now }
{
    let found = newick::print(n, costs, lefts, room);
    found == Ok(text.len()) && check::same(room, text)
}
