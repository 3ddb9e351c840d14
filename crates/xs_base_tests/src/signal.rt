// Samples, colour and quantisers, there and back.
use xs_colour::{rct, unrct};
use xs_layout::Quant;
use xs_params::{Format, Shape};
use xs_quant::{dequantise, fold, quantise};
use xs_samples::{raw_size, scale_in, scale_out};

#[test]
fn greatest_sample_there_and_back(rt: HostRuntime) {
    assert!(rt; scale_in(1023, 10, 20) == 523_264 && scale_out(523_264, 10, 20) == 1023);
    assert!(rt; scale_out(600_000, 10, 20) == 1023, "past the greatest");
    assert!(rt; scale_in(255, 8, 18) == 130_048 && scale_out(130_048, 8, 18) == 255);
}

#[test]
fn samples_of_ten_bits_have_two_bytes(rt: HostRuntime) {
    let shape = Shape {
        width: 33,
        height: 4,
        format: Format::C422,
        depth: 10,
    };
    assert!(rt; raw_size(&shape) == 536);
}

#[test]
fn colour_there_and_back(rt: HostRuntime) {
    assert!(rt; rct(10, 20, 31) == (20, 11, -10) && unrct(20, 11, -10) == (10, 20, 31));
}

#[test]
fn magnitude_there_and_back(rt: HostRuntime) {
    assert!(rt; quantise(Quant::DeadZone, [21, 0, 0, 0], 5, 3) == [2, 0, 0, 0]);
    assert!(rt; quantise(Quant::Uniform, [21, 0, 0, 0], 5, 3) == [2, 0, 0, 0]);
    assert!(rt; dequantise(Quant::DeadZone, [2, 0, 0, 0], 5, 3) == [20, 0, 0, 0]);
    assert!(rt; dequantise(Quant::Uniform, [2, 0, 0, 0], 5, 3) == [18, 0, 0, 0]);
}

#[test]
fn coefficients_rounded(rt: HostRuntime) {
    assert!(rt; fold(8_400_000, 8) == 32767, "past the greatest");
    assert!(rt; fold(-128, 8) == -1 && fold(-127, 8) == 0);
}
