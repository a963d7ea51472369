// What the calls of both ends tell beside the numbers.

// What became of the link: a slave gains it in going to NRM and a master in going to linked; each loses it in leaving that mode.
#[derive(Clone, Copy, Debug, PartialEq, Eq)]
pub enum Change {
    Same,
    Gained,
    Lost,
}

// What a frame brought: the size of the held message that it confirmed and of the message that it handed over, and what became of the link.
// 0 stands for no message, as in a side's slots, which `link`'s runs read with these sizes (`message`), and as the C interface gives it; no message has the size 0.
#[derive(Clone, Copy, Debug, PartialEq, Eq)]
pub struct News {
    pub confirmed: usize,
    pub handed: usize,
    pub link: Change,
}
