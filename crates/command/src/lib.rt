// What can be asked of the carriage: document 01's table of commands and its table of settings, as types.
// What is constant of a command is in kinds.rt, what a command carries in forms.rt, the settings' table in settings.rt.
#![tactic(auto)]

use units::{Number, Position, Speed};

// The settings of an axis, in the order of document 01's table.
#[derive(Clone, Copy)]
pub enum AxisSetting {
    Pos,
    LimitMin,
    LimitMax,
    MaxSpeed,
    Accel,
    DriverCurrentMax,
    DriverCurrentRun,
    DriverCurrentHold,
    DriverDir,
    EncoderIndexCount,
}

// The settings of the device, in the order of document 01's table.
#[derive(Clone, Copy)]
pub enum DeviceSetting {
    CommAddress,
    CommAlert,
    CommChecksum,
    SystemAccess,
    DeviceId,
    SystemAxisCount,
}

#[derive(Clone, Copy)]
pub enum Setting {
    OfAxis(AxisSetting),
    OfDevice(DeviceSetting),
}

// Where a move is to end: `move abs`, `rel`, `min`, `max`, `stored`.
#[derive(Clone, Copy)]
pub enum Target {
    Abs(Position),
    Rel(Position),
    Min,
    Max,
    Stored(Number),
}

// The commands of the scope "axis". The rows of document 01's table, in its order.
#[derive(Clone, Copy)]
pub enum AxisCommand {
    Nothing,
    Home,
    Stop,
    Estop,
    MoveTo(Target),
    MoveVel(Speed),
    Get(AxisSetting),
    Set(AxisSetting, Number),
    Storepos(Number),
    StoreposAt(Number, Position),
    StoreposCurrent(Number),
    Warnings,
    WarningsClear,
}

// The commands of the scope "device". The words of an echo stand beside the command, in its line.
#[derive(Clone, Copy)]
pub enum DeviceCommand {
    Get(DeviceSetting),
    Set(DeviceSetting, Number),
    ParkingState,
    Park,
    Unpark,
    Echo,
    Help,
}

// A command by its scope.
#[derive(Clone, Copy)]
pub enum Command {
    OfAxes(AxisCommand),
    OfDevice(DeviceCommand),
}

pub mod access;
pub mod forms;
pub mod kinds;
