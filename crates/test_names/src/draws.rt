//! Drawn numbers.
use drawn_numbers::Draws;

/// The first draws of two seeds.
#[test]
fn draws(rt: HostRuntime) {
    let mut draws = Draws::new(0);
    assert_eq!(rt; draws.draw(), 167_951_807);
    let mut draws = Draws::new(1);
    assert_eq!(rt; draws.draw(), 908_834_774);
}
