// Where a point may sit: the Park-Miller generator, and the 64 hash functions that its values make.
#![tactic(auto)]

ghost use Rattle.std.specs.Prelude.{◌≡◌, ◌<◌, true};
ghost use Rattle.hash.specs.Position.{next_of, z, carter_wegman, position_of};
ghost use Rattle.hash.specs.Table.{is_table, coefficient_of};

// z(1) to z(128), two for each hash function.
static COEFFICIENTS: [u32; 128] = [
    16807, 282475249, 1622650073, 984943658, 1144108930, 470211272, 101027544, 1457850878,
    1458777923, 2007237709, 823564440, 1115438165, 1784484492, 74243042, 114807987, 1137522503,
    1441282327, 16531729, 823378840, 143542612, 896544303, 1474833169, 1264817709, 1998097157,
    1817129560, 1131570933, 197493099, 1404280278, 893351816, 1505795335, 1954899097, 1636807826,
    563613512, 101929267, 1580723810, 704877633, 1358580979, 1624379149, 2128236579, 784558821,
    530511967, 2110010672, 1551901393, 1617819336, 1399125485, 156091745, 1356425228, 1899894091,
    585640194, 937186357, 1646035001, 1025921153, 510616708, 590357944, 771515668, 357571490,
    1044788124, 1927702196, 1952509530, 130060903, 1942727722, 1083454666, 1108728549, 685118024,
    2118797801, 1060806853, 571540977, 194847408, 2035308228, 158374933, 1075260298, 824938981,
    595028635, 1962408013, 1137623865, 997389814, 2020739063, 107554536, 1635339425, 1654001669,
    1777724115, 269220094, 34075629, 1478446501, 1864546517, 1351934195, 1581030105, 1557810404,
    2146319451, 1908194298, 500782188, 657821123, 753799505, 1102246882, 1269406752, 1816731566,
    884936716, 1807130337, 578354438, 892053144, 1153851501, 1004844897, 616783871, 382955828,
    330111137, 1227619358, 1723153177, 70982397, 1147722294, 1070477904, 2051621609, 1606946231,
    1190959745, 1912844175, 1341853635, 1808266298, 343098142, 456880399, 1534827968, 280090412,
    195400260, 589673557, 6441594, 889688008, 57716395, 1524325968, 2014119113, 515204530,
];

// z(n), worked out by the recurrence.
#[tactic(auto, unfolding(crate::specs::Position::z))]
pub fn generated(n: u32) -> u32
    ensures { result ≡ z n }
{
    let mut value = 1;
    for _ in 0..n {
        value = next(value);
    }
    value
}

// One iteration of the recurrence: the generator's next value.
pub fn next(value: u32) -> u32
    ensures { result ≡ next_of value }
{
    (16807 * u64::from(value) % 2147483647) as u32
}

// The table, checked whole by one test.
fn coefficients() -> &'static [u32; 128]
    ensures { is_table result.now ≡ true }
{
    &COEFFICIENTS
}

// z(j) from the table, 0 outside 1 to 128.
#[tactic(auto, using(crate::proofs::Table::entry), unfolding(crate::specs::Table::coefficient_of))]
pub fn coefficient(j: u32) -> u32
    ensures { result ≡ coefficient_of j }
{
    match j {
        1..=128 => coefficients()[(j - 1) as usize],
        _ => 0,
    }
}

// Position `index` of a point in a table of `slots`: below `slots`, or 0 where there is no such
// function or no slot.
#[tactic(auto, unfolding(crate::specs::Position::position_of))]
pub fn position(slots: u32, point: u32, index: u32) -> u32
    ensures { result ≡ position_of slots point index }
{
    if slots == 0 || index == 0 || 64 < index {
        return 0;
    }
    let table = coefficients();
    let at = (2 * index - 2) as usize;
    mixed(table[at], table[at + 1], point, slots)
}

// ((a q + b) mod p) mod m
fn mixed(a: u32, b: u32, point: u32, slots: u32) -> u32
    requires { 0 < slots }
    ensures { result ≡ carter_wegman a b point slots }
{
    let sum = u64::from(a) * u64::from(point) + u64::from(b);
    (sum % 2147483647 % u64::from(slots)) as u32
}
