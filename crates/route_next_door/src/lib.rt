// What C calls for the route after one that it has (include/poztecameh.h; poztecameh exports it). What it gets is defined beside pz_first's.
#![tactic(auto)]

ghost use Rattle.std.specs.Prelude.{◌≡◌};
ghost use Rattle.route_first_door.specs.Routes.{pz_next_number, pz_next_buffer};

// Writes the route after the one of this length.
pub fn pz_next(chart: &[u8], route: &mut [u8], length: usize) -> u8
    ensures { (result ≡ pz_next_number chart.now route.old length) × (route.new ≡ pz_next_buffer chart.now route.old length) }
{
    match chart_read::read_chart(chart) {
        Ok(c) => route_trace::one_number(route_trace::next_known(c, route, length)),
        Err(fault) => fault.refusal.number(),
    }
}
