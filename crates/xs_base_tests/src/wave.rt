// Lines there and back through the wavelet.
use xs_wave::{analyse_line, synthesise_line};

// The greatest magnitude that a line may have, and its double.
const MOST: i64 = 1_125_899_906_842_623;

const TWICE: i64 = 2_251_799_813_685_246;

#[test]
fn line_of_four_there_and_back(rt: HostRuntime) {
    let mut low = [0; 2];
    let mut high = [0; 2];
    analyse_line(&[10, 13, 20, 9], &mut low, &mut high);
    assert!(rt; low == [9, 17] && high == [-2, -11]);
    let mut line = [0; 4];
    synthesise_line(&[9, 17], &[-2, -11], &mut line);
    assert!(rt; line == [10, 13, 20, 9]);
}

#[test]
fn line_of_two_there_and_back(rt: HostRuntime) {
    let mut low = [0; 1];
    let mut high = [0; 1];
    analyse_line(&[5, 8], &mut low, &mut high);
    assert!(rt; low == [7] && high == [3]);
    let mut line = [0; 2];
    synthesise_line(&[7], &[3], &mut line);
    assert!(rt; line == [5, 8]);
}

#[test]
fn greatest_line_of_three(rt: HostRuntime) {
    let mut low = [1; 2];
    let mut high = [1; 1];
    analyse_line(&[MOST, -MOST, MOST], &mut low, &mut high);
    assert!(rt; low == [0, 0] && high == [-TWICE]);
}
