// Worked products, inverses, numbers and a row of byte symbols.
#![tactic(auto)]

#[cfg(test)]
mod tests {
    use byte::Byte;
    use field::{Field, NumberedField};

    fn product(a: u8, b: u8) -> u8 {
        Byte::new(a).product(Byte::new(b)).value()
    }

    fn inverse(a: u8) -> u8 {
        Byte::new(a).inverse().value()
    }

    // The symbol at number m of the row that begins 3 1 4 1.
    fn goes_on(m: usize) -> u8 {
        let row = [Byte::new(3), Byte::new(1), Byte::new(4), Byte::new(1)];
        row::row_symbol(&row, m).map_or(0, |symbol| symbol.value())
    }

    #[test]
    fn products(rt: HostRuntime) {
        assert_eq!(rt; product(2, 128), 29);
        assert_eq!(rt; product(87, 131), 49);
        assert_eq!(rt; byte::product_by_bits(87, 131), 49);
        assert!(rt; product(0, 200) == 0 && product(200, 0) == 0 && product(1, 255) == 255);
    }

    #[test]
    fn inverses(rt: HostRuntime) {
        assert_eq!(rt; inverse(2), 142);
        assert_eq!(rt; inverse(200), 210);
        assert!(rt; inverse(0) == 0 && inverse(1) == 1);
    }

    #[test]
    fn row_goes_on(rt: HostRuntime) {
        assert_eq!(rt; goes_on(4), 109);
        assert_eq!(rt; goes_on(5), 125);
        assert_eq!(rt; goes_on(6), 82);
    }

    #[test]
    fn numbers(rt: HostRuntime) {
        assert!(rt; Byte::size() == 256 && Byte::new(200).number() == 200);
        assert!(rt; Byte::symbol(255).is_some() && Byte::symbol(256).is_none());
    }
}
