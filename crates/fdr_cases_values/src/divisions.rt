//! How far divisors reach, and quotients there beside those of a division.

use fdr_divisor::Divisor;

/// Divisors from the least to the greatest, each with the greatest number within its reach.
const REACH: [(u32, u64); 14] = [
    (1, 8_388_607),
    (2, 16_777_215),
    (3, 25_165_823),
    (7, 58_720_255),
    (10, 83_886_079),
    (100, 838_860_799),
    (362, 3_036_676_095),
    (363, 3_028_957_652),
    (1_000, 1_099_511_627),
    (4_095, 268_501_008),
    (65_536, 16_777_215),
    (1_000_000_000, 1_099),
    (2_147_483_648, 511),
    (4_294_967_295, 256),
];

/// Whether a number is within reach, and its quotient and rest are those of a division.
fn is_division(divisor: &Divisor, by: u32, number: u64) -> bool {
    if by == 0 || !divisor.reaches(number) {
        return false;
    }
    let (quotient, rest) = divisor.split(number);
    divisor.quotient(number) == quotient
        && u64::from(quotient) == number / u64::from(by)
        && u64::from(rest) == number % u64::from(by)
}

#[test]
fn reaches_up_to_the_last_number_and_no_further(rt: HostRuntime) {
    for (by, last) in REACH {
        assert!(rt; by > 0 && last < u64::MAX);
        let divisor = Divisor::new(by);
        let next = last + 1;
        assert!(rt;
            divisor.reaches(0)
                && is_division(&divisor, by, last)
                && !divisor.reaches(next)
                && !divisor.reaches(u64::MAX),
            "{by}"
        );
    }
}
