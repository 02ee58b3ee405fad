// The bodies of a link's field and of the question's.
ghost use Rattle.std.specs.Prelude.{◌≡◌};
ghost use Rattle.chart.specs.Values.{directed};
ghost use Rattle.chart_write.specs.Writing.{link_body, question_body};

use address::Station;
use chart::Link;
use chart_read::{DIRECTED_LENGTH, QUESTION_LENGTH};

// A link's body in the directed form. Without its last byte it is that in the plain one.
pub fn link_body(l: Link) -> [u8; DIRECTED_LENGTH]
    ensures { result ≡ link_body directed l }
{
    let a = address_bytes::address_bytes(l.a);
    let b = address_bytes::address_bytes(l.b);
    [
        a[0],
        a[1],
        a[2],
        a[3],
        b[0],
        b[1],
        b[2],
        b[3],
        u8::from(l.on),
        l.direction,
    ]
}

// The question's body.
pub fn question_body(from: Station, to: Station) -> [u8; QUESTION_LENGTH]
    ensures { result ≡ question_body from to }
{
    let f = address_bytes::station_bytes(from);
    let t = address_bytes::station_bytes(to);
    [f[0], f[1], f[2], t[0], t[1], t[2]]
}
