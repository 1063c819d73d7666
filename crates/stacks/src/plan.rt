// The stacks that the programs name: each has one quota left open.

// On the branch of an axis.
#[derive(Clone, Copy)]
pub enum AxisStack {
    // A chain.
    Chain,
    // A master whose inner key is renewed after each 16 keys.
    Master,
    // A serial level, and a chain of 8 on it.
    SerialChain,
    // A fan, a fan of 16 on it, and a chain of 8 on that.
    FanFanChain,
}

#[derive(Clone, Copy)]
pub enum Plan {
    // A stack on the branch of the axis of that number.
    OnAxis(AxisStack, u32),
    // One level on the root.
    OneFan,
    OneSerial,
    OneChain,
    // One master of that period on the root.
    OneMaster(u32),
}
