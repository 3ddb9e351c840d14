// The fields of a picture header.
ghost use Rattle.std.specs.Prelude.{◌≡◌, ◌+◌, ◌*◌, ◌<◌, ◌≤◌, ◌^◌, IfOk, length, max};
ghost use Rattle.std.specs.Result.{result_err};
ghost use Rattle.xs_layout.specs.Geometry.{slice_count_of};
ghost use Rattle.xs_markers.specs.Reading.{header_of_fields};
ghost use Rattle.xs_markers.specs.Segments.{bands_of_fields, picture_fields_of};
ghost use Rattle.xs_markers.specs.Values.{fields_fault, picture_rules};
ghost use Rattle.xs_markers.specs.Seen.{IsLimited};

use crate::numbers::{field, half_word_at, word_at};
use crate::rules::{FieldRule, exactly, first_refused, tested, within};
use xs_faults::{HeadFault, HeadField};
use xs_layout::limits::{
    LEAST_HEIGHT, LEAST_WIDTH, MOST_ACROSS, MOST_AREA, MOST_DOWN, MOST_HEIGHT, MOST_RUN_MODE,
    MOST_SLICES, MOST_WIDTH,
};
use xs_layout::{ceil_div, fq_of, is_precision};
use xs_params::{Header, Quant, Shape, Weights};

/// What a picture header says, by the names of its fields in ISO/IEC 21122-1. Those that have no effect are left out.
#[derive(Clone, Copy)]
pub struct PictureFields {
    pub lcod: u32,
    pub wf: u16,
    pub hf: u16,
    pub cw: u16,
    pub hsl: u16,
    pub nc: u8,
    pub ng: u8,
    pub ss: u8,
    pub bw: u8,
    pub fq: u8,
    pub br: u8,
    pub fslc: u8,
    pub ppoc: u8,
    pub cpih: u8,
    pub nlx: u8,
    pub nly: u8,
    pub lh: bool,
    pub qpih: u8,
    pub fs: u8,
    pub rm: u8,
}

impl PictureFields {
    /// The fields of the body of a picture header.
    pub fn of(body: &[u8]) -> PictureFields
        requires size { length body.now ≡ 24 }
        ensures fields { result ≡ picture_fields_of body.now }
    {
        PictureFields {
            lcod: word_at(body, 0),
            wf: half_word_at(body, 8),
            hf: half_word_at(body, 10),
            cw: half_word_at(body, 12),
            hsl: half_word_at(body, 14),
            nc: body[16],
            ng: body[17],
            ss: body[18],
            bw: body[19],
            fq: field(body[20], 4, 4),
            br: field(body[20], 4, 0),
            fslc: field(body[21], 1, 7),
            ppoc: field(body[21], 3, 4),
            cpih: field(body[21], 4, 0),
            nlx: field(body[22], 4, 4),
            nly: field(body[22], 4, 0),
            lh: field(body[23], 1, 7) == 1,
            qpih: field(body[23], 2, 4),
            fs: field(body[23], 2, 2),
            rm: field(body[23], 2, 0),
        }
    }

    /// The same, if none of their values is refused.
    pub fn read(body: &[u8]) -> Result<PictureFields, HeadFault>
        requires size { length body.now ≡ 24 }
        ensures first { result_err result ≡ fields_fault (picture_rules (picture_fields_of body.now)) }
        ensures fields { IfOk result (λ p. p ≡ picture_fields_of body.now) }
        ensures limited { IfOk result IsLimited }
    {
        let picture = PictureFields::of(body);
        first_refused(&picture.rules())?;
        Ok(picture)
    }

    // The number of slices.
    fn slices(&self) -> u32
        requires down { self.now.nly < 16 }
        ensures { result ≡ slice_count_of self.now.hf self.now.nly (max 1 self.now.hsl) }
    {
        let precincts = ceil_div(u32::from(self.hf), 1 << self.nly);
        ceil_div(precincts, u32::from(self.hsl.max(1)))
    }

    fn area(&self) -> u32
        ensures { result ≡ self.now.wf * self.now.hf }
    {
        u32::from(self.wf) * u32::from(self.hf)
    }

    /// The values that the fields may have, in the order in which they are asked.
    pub fn rules(&self) -> [FieldRule; 20]
        requires down { self.now.nly < 16 }
        ensures rules { result ≡ picture_rules self.now }
    {
        let down = u32::from(MOST_DOWN.min(self.nlx));
        let colour = self.cpih == 0 || self.cpih == 1 && self.nc == 3;
        [
            within(HeadField::Wf, LEAST_WIDTH, MOST_WIDTH, u32::from(self.wf)),
            within(HeadField::Hf, LEAST_HEIGHT, MOST_HEIGHT, u32::from(self.hf)),
            within(HeadField::Area, 0, MOST_AREA as u32, self.area()),
            exactly(HeadField::Cw, 0, u32::from(self.cw)),
            tested(HeadField::Hsl, self.hsl > 0, u32::from(self.hsl)),
            tested(
                HeadField::Nc,
                self.nc == 1 || self.nc == 3,
                u32::from(self.nc),
            ),
            exactly(HeadField::Ng, 4, u32::from(self.ng)),
            exactly(HeadField::Ss, 8, u32::from(self.ss)),
            tested(HeadField::Bw, is_precision(self.bw), u32::from(self.bw)),
            exactly(HeadField::Fq, u32::from(fq_of(self.bw)), u32::from(self.fq)),
            exactly(HeadField::Br, 4, u32::from(self.br)),
            exactly(HeadField::Fslc, 0, u32::from(self.fslc)),
            exactly(HeadField::Ppoc, 0, u32::from(self.ppoc)),
            tested(HeadField::Cpih, colour, u32::from(self.cpih)),
            within(
                HeadField::Nlx,
                1,
                u32::from(MOST_ACROSS),
                u32::from(self.nlx),
            ),
            within(HeadField::Nly, 0, down, u32::from(self.nly)),
            within(HeadField::Slices, 0, MOST_SLICES, self.slices()),
            within(HeadField::Qpih, 0, 1, u32::from(self.qpih)),
            within(HeadField::Fs, 0, 1, u32::from(self.fs)),
            within(
                HeadField::Rm,
                0,
                u32::from(MOST_RUN_MODE),
                u32::from(self.rm),
            ),
        ]
    }

    /// The number of bands.
    pub fn bands(&self) -> u16
        requires limited { IsLimited self.now }
        ensures count { result ≡ bands_of_fields self.now }
        ensures few { result ≤ 30 }
    {
        (2 * u16::from(self.nly) + u16::from(self.nlx) + 1) * u16::from(self.nc)
    }

    /// The header with these fields, whose values were accepted, this shape and these weights.
    pub fn header(&self, shape: Shape, weights: Weights) -> Header
        ensures header { result ≡ header_of_fields self.now shape weights }
    {
        Header {
            lcod: self.lcod,
            shape,
            hsl: self.hsl,
            bw: self.bw,
            fq: self.fq,
            colour: self.cpih == 1,
            nlx: self.nlx,
            nly: self.nly,
            long_heads: self.lh,
            quant: if self.qpih == 1 {
                Quant::Uniform
            } else {
                Quant::DeadZone
            },
            signs_apart: self.fs == 1,
            run_mode: self.rm,
            weights,
        }
    }
}
