// What C calls for the routes of a chart.

ghost use Rattle.std.specs.Prelude.{◌≡◌, length};
ghost use Rattle.route_first_door.specs.Routes.{pz_first_number, pz_first_buffer, pz_next_number, pz_next_buffer};
ghost use Rattle.route_list_door.specs.Calls.{pz_routes_refusal, pz_routes_place, pz_routes_count, pz_routes_more, pz_routes_slots};

// Writes the first route; the length is not looked at.
#[unsafe(no_mangle)]
pub extern "C" fn pz_first(chart: &[u8], route: &mut [u8], length: usize) -> u8
    ensures { (result ≡ pz_first_number chart.now route.old) × (route.new ≡ pz_first_buffer chart.now route.old) }
{
    route_first_door::pz_first(chart, route, length)
}

// Writes the route after the one of this length.
#[unsafe(no_mangle)]
pub extern "C" fn pz_next(chart: &[u8], route: &mut [u8], length: usize) -> u8
    ensures { (result ≡ pz_next_number chart.now route.old length) × (route.new ≡ pz_next_buffer chart.now route.old length) }
{
    route_next_door::pz_next(chart, route, length)
}

// Lists the routes; `count` is how many, `more` 1 where others follow, `place` where the field begins that the chart's number refuses, else 0.
#[unsafe(no_mangle)]
pub extern "C" fn pz_routes(
    chart: &[u8],
    slots: &mut [u8],
    count: &mut u16,
    more: &mut u8,
    place: &mut u16,
) -> u8
    ensures { (result ≡ pz_routes_refusal chart.now (length slots.old)) × (count.new ≡ pz_routes_count chart.now (length slots.old)) × (more.new ≡ pz_routes_more chart.now (length slots.old)) × (place.new ≡ pz_routes_place chart.now) × (slots.new ≡ pz_routes_slots chart.now slots.old) }
{
    route_list_door::pz_routes(chart, slots, count, more, place)
}
