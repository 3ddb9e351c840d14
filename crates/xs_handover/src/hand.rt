// The rows of a slice are handed over.
ghost use Rattle.std.specs.Prelude.{◌≡◌, ◌<◌, ◌≤◌, ◌^◌, [], ◌∷◌, ◌++◌, IfOk, IfErr, IfSome, length};
ghost use Rattle.xs_params.specs.Accepted.{IsAccepted};
ghost use Rattle.xs_params.specs.Geometry.{slice_count};
ghost use Rattle.xs_lanes.specs.Knowing.{SameShare};
ghost use Rattle.xs_handover.specs.Passes.{IsHandPass, stripe_count, actor};
ghost use Rattle.xs_handover.specs.Handing.{FilesAll, Hands, IsFit, IsRefusal, listed, source_of};

use crate::block::RowBlock;
use crate::blocks::Handed;
use crate::fault::HandFault;
use crate::handover::{HandPass, Handover};
use crate::reading::read_blocks;
use std::alloc::Global;
use xs_io::Octets;
use xs_params::Header;

impl Handover {
    // Puts a block into its stripe. One whose place is taken is dropped.
    fn put(&self, pass: &mut HandPass, block: RowBlock)
        requires pass { IsHandPass self.now pass.old }
        requires fits { IsFit (stripe_count self.now) block }
        ensures pass { IsHandPass self.now pass.new }
        ensures share { SameShare (actor pass.old) (actor pass.new) }
        ensures files { FilesAll (block ∷ []) (actor pass.old) (actor pass.new) }
    {
        drop(self.lanes.put(&mut pass.pass, block));
    }

    // The same, if there is one.
    fn put_if(&self, pass: &mut HandPass, block: Option<RowBlock>)
        requires pass { IsHandPass self.now pass.old }
        requires fits { IfSome block (IsFit (stripe_count self.now)) }
        ensures pass { IsHandPass self.now pass.new }
        ensures share { SameShare (actor pass.old) (actor pass.new) }
        ensures files { FilesAll (listed block) (actor pass.old) (actor pass.new) }
    {
        match block {
            Some(block) => self.put(pass, block),
            None => {}
        }
    }

    // Puts all that is handed of a slice.
    fn put_all(&self, pass: &mut HandPass, handed: Handed)
        requires pass { IsHandPass self.now pass.old }
        requires body { IsFit (stripe_count self.now) handed.body }
        requires up { IfSome handed.up (IsFit (stripe_count self.now)) }
        requires down { IfSome handed.down (IsFit (stripe_count self.now)) }
        ensures pass { IsHandPass self.now pass.new }
        ensures share { SameShare (actor pass.old) (actor pass.new) }
        ensures files { FilesAll ((handed.body ∷ []) ++ listed handed.up ++ listed handed.down) (actor pass.old) (actor pass.new) }
    {
        self.put(pass, handed.body);
        self.put_if(pass, handed.up);
        self.put_if(pass, handed.down);
    }

    /// Reads what is sent of a slice, hands its rows to its own stripe, and its edges to the stripes beside it. Rows whose place
    /// in a stripe is taken are dropped. Where the bytes have a fault or memory is wanting, nothing is handed.
    pub fn hand(
        &self,
        alloc: Global,
        pass: &mut HandPass,
        header: &Header,
        slice: u32,
        bytes: Octets,
    ) -> Result<(), HandFault>
        requires pass { IsHandPass self.now pass.old }
        requires accepted { IsAccepted header.now }
        requires slice { slice < slice_count header.now }
        requires stripes { slice_count header.now ≤ stripe_count self.now }
        requires few { length bytes < 2 ^ 32 }
        ensures pass { IsHandPass self.now pass.new }
        ensures share { SameShare (actor pass.old) (actor pass.new) }
        ensures handed { IfOk result (λ _. Hands (source_of header.now slice bytes) (actor pass.old) (actor pass.new)) }
        ensures refused { IfErr result (λ fault. IsRefusal (source_of header.now slice bytes) fault × (actor pass.new ≡ actor pass.old)) }
    {
        let handed = read_blocks(alloc, header, slice, bytes)?;
        self.put_all(pass, handed);
        Ok(())
    }
}
