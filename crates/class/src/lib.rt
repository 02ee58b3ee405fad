// A whole class in one box (document 02, Nine): up to 16 nodes of one chart, each with a table, and a message passed from one to the next. A node's table says
// where a message goes, the chart's links where it comes in.
#![tactic(auto)]

ghost use Rattle.std.specs.Prelude.{◌≡◌, ◌<◌};
ghost use Rattle.chart.specs.Values.{most_nodes};
ghost use Rattle.refusal.specs.Numbers.{AnswersAt};
ghost use Rattle.class.specs.Class.{begun_at, ended_with, came_to, step_on};
ghost use Rattle.class.specs.Calls.{tables_in, message_begun, message_stepped, passing, way_passed, begin_of, step_of, pass_of};
ghost use Rattle.class.specs.Private.{Going, passed_from};

use address::{Address, Port, Station};
use chart::Chart;
use chart_read::read_chart;
use links::out_by;
use refusal::Fault;
use table::Choice;
use tables::choice_of;
use tests::class_refusal;

mod links;
mod tables;
mod tests;

// How a message stands: on its way, or how it ended.
pub const UNDER_WAY: u8 = 0;

pub const DELIVERED: u8 = 1;

pub const WITHOUT_ROUTE: u8 = 2;

pub const WITHOUT_LINK: u8 = 3;

pub const MET_BEFORE: u8 = 4;

// At most 16 nodes, and one that is met again.
pub const LONGEST_WAY: usize = 17;

// The node place where a message is, the port that it came in by, the nodes that it has met, and how it stands.
#[derive(Clone, Copy)]
pub struct Message {
    pub at: u8,
    pub arrival: Port,
    pub met: u16,
    pub ending: u8,
}

// The node places that a message came to, in order, and how it ended.
#[derive(Clone, Copy)]
pub struct Passed {
    pub ending: u8,
    pub count: usize,
    pub way: [u8; 17],
}

// A message that begins at a node place: it came in by no port, and only that node is met.
fn begun(at: u8) -> Message
    requires { at < most_nodes }
    ensures { result ≡ begun_at at }
{
    Message {
        at,
        arrival: Port(0),
        met: 1u16 << at,
        ending: UNDER_WAY,
    }
}

// It ends where it is.
fn ended(m: Message, ending: u8) -> Message
    ensures { result ≡ ended_with ending m }
{
    Message { ending, ..m }
}

// It comes to a node by a port: at one that it has met it ends.
fn came_to(m: Message, at: u8, arrival: Port) -> Message
    requires { at < most_nodes }
    ensures { result ≡ came_to m (record { node = at; port = arrival }) }
{
    let here = 1u16 << at;
    if m.met & here != 0 {
        return Message {
            at,
            arrival,
            met: m.met,
            ending: MET_BEFORE,
        };
    }
    Message {
        at,
        arrival,
        met: m.met | here,
        ending: UNDER_WAY,
    }
}

// One step of a message for the destination: the choice of the node where it is, and at most one link. What has ended stays.
fn step_on(c: Chart, tables: &[u8], d: Address, m: Message) -> Message
    requires { Going c tables.now m.at }
    ensures { result ≡ step_on c (tables_in tables.now) d m }
{
    if m.ending != UNDER_WAY {
        return m;
    }
    match choice_of(tables, m.at as usize, d, m.arrival) {
        Ok(Choice::Local(_)) => ended(m, DELIVERED),
        Err(_) => ended(m, WITHOUT_ROUTE),
        Ok(Choice::Out(p)) => match out_by(c, m.at as usize, p) {
            Some(x) => came_to(m, x.node, x.port),
            None => ended(m, WITHOUT_LINK),
        },
    }
}

// A message for the destination begins at a station.
pub fn begin(chart: &[u8], tables: &[u8], s: Station, d: Address) -> Result<Message, Fault>
    ensures value { AnswersAt result (begin_of chart.now tables.now d s).refusal (begin_of chart.now tables.now d s).place (begin_of chart.now tables.now d s).message }
    ensures answer { message_begun result ≡ begin_of chart.now tables.now d s }
{
    let c = read_chart(chart)?;
    let at = chart_net::place_of(c.nodes, s);
    if let Err(refusal) = class_refusal(c.nodes, tables, at, d, Port(0)) {
        return Err(Fault { refusal, place: 0 });
    }
    Ok(begun(at))
}

// A message for the destination, a step on.
pub fn step(chart: &[u8], tables: &[u8], d: Address, m: Message) -> Result<Message, Fault>
    ensures value { AnswersAt result (step_of chart.now tables.now d m).refusal (step_of chart.now tables.now d m).place (step_of chart.now tables.now d m).message }
    ensures answer { message_stepped m result ≡ step_of chart.now tables.now d m }
{
    let c = read_chart(chart)?;
    if let Err(refusal) = class_refusal(c.nodes, tables, m.at, d, m.arrival) {
        return Err(Fault { refusal, place: 0 });
    }
    Ok(step_on(c, tables, d, m))
}

// All steps of a message at a node place, until it ends: as many as there are nodes are enough.
fn run(c: Chart, tables: &[u8], d: Address, at: u8) -> Passed
    requires { Going c tables.now at }
    ensures { result ≡ passing (passed_from c (tables_in tables.now) d at) }
{
    let mut m = begun(at);
    let mut way = [0u8; 17];
    way[0] = at;
    let mut count: usize = 1;
    let mut left = c.nodes.count;
    while (m.ending == UNDER_WAY) & (0 < left) {
        m = step_on(c, tables, d, m);
        if (m.ending == UNDER_WAY) | (m.ending == MET_BEFORE) {
            way[count] = m.at;
            count += 1;
        }
        left -= 1;
    }
    Passed {
        ending: m.ending,
        count,
        way,
    }
}

// A message for the destination begins at a station and goes on until it ends.
pub fn pass(chart: &[u8], tables: &[u8], s: Station, d: Address) -> Result<Passed, Fault>
    ensures value { AnswersAt result (pass_of chart.now tables.now d s).refusal (pass_of chart.now tables.now d s).place (passing (pass_of chart.now tables.now d s)) }
    ensures answer { way_passed result ≡ pass_of chart.now tables.now d s }
{
    let c = read_chart(chart)?;
    let at = chart_net::place_of(c.nodes, s);
    if let Err(refusal) = class_refusal(c.nodes, tables, at, d, Port(0)) {
        return Err(Fault { refusal, place: 0 });
    }
    Ok(run(c, tables, d, at))
}
