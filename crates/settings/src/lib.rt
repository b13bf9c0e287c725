// The settings of an axis, by value: range, value, and the settings with another value; and the ranges of the device's.
// One line a setting, as in document 01's table.
#![tactic(auto)]

ghost use Rattle.std.specs.Prelude.{◌≡◌};
ghost use Rattle.laws.specs.Lists.{all};
ghost use Rattle.command.specs.Settings.{axis_settings};
ghost use Rattle.settings.specs.Record.{fresh_current, fresh_settings};
ghost use Rattle.settings.specs.Settings.{range as range_of, device_range, value as value_of, in_range, put as put_of, allows as allowsOf, device_allows};

use command::{AxisSetting, DeviceSetting};
use units::{Number, Position, Range, Speed};

// limit.min and limit.max.
#[derive(Clone, Copy)]
pub struct Limit {
    pub min: Position,
    pub max: Position,
}

// driver.current.max, driver.current.run and driver.current.hold.
#[derive(Clone, Copy)]
pub struct Current {
    pub max: Number,
    pub run: Number,
    pub hold: Number,
}

// The settings of an axis: `dir` is driver.dir, `index` is encoder.index.count.
#[derive(Clone, Copy)]
pub struct Settings {
    pub pos: Position,
    pub limit: Limit,
    pub maxspeed: Speed,
    pub accel: Number,
    pub current: Current,
    pub dir: Number,
    pub index: Number,
}

fn device_range(s: DeviceSetting) -> Range
    ensures { result ≡ device_range s }
{
    match s {
        DeviceSetting::CommAddress => Number(1).to(Number(99)),
        DeviceSetting::CommAlert => Number(0).to(Number(1)),
        DeviceSetting::CommChecksum => Number(0).to(Number(1)),
        DeviceSetting::SystemAccess => Number(1).to(Number(2)),
        DeviceSetting::DeviceId => Number(0).to(Number(2147483647)),
        DeviceSetting::SystemAxisCount => Number(1).to(Number(4)),
    }
}

// May n be the value of a setting of the device?
pub fn device_allows(s: DeviceSetting, n: Number) -> bool
    ensures { result ≡ device_allows s n }
{
    n.within(device_range(s))
}

impl Current {
    fn fresh() -> Current
        ensures { result ≡ fresh_current }
    {
        Current {
            max: Number(140),
            run: Number(100),
            hold: Number(60),
        }
    }
}

impl Settings {
    pub fn fresh() -> Settings
        ensures { result ≡ fresh_settings }
    {
        let zero = Position(0);
        let none = Number(0);
        let limit = Limit {
            min: zero,
            max: Position(305381),
        };
        let current = Current::fresh();
        Settings {
            pos: zero,
            limit,
            maxspeed: Speed(153600),
            accel: Number(205),
            current,
            dir: none,
            index: none,
        }
    }

    fn range(self, s: AxisSetting) -> Range
        ensures { result ≡ range_of s self }
    {
        let low = Number::from(self.limit.min);
        let high = Number::from(self.limit.max);
        let current = self.current.max;
        match s {
            AxisSetting::Pos => Number(-1000000000).to(Number(1000000000)),
            AxisSetting::LimitMin => Number(-1000000000).to(high),
            AxisSetting::LimitMax => low.to(Number(1000000000)),
            AxisSetting::MaxSpeed => Number(1).to(Number(1000000000)),
            AxisSetting::Accel => Number(0).to(Number(32767)),
            AxisSetting::DriverCurrentMax => Number(0).to(Number(255)),
            AxisSetting::DriverCurrentRun => Number(0).to(current),
            AxisSetting::DriverCurrentHold => Number(0).to(current),
            AxisSetting::DriverDir => Number(0).to(Number(1)),
            AxisSetting::EncoderIndexCount => Number(-32768).to(Number(32767)),
        }
    }

    pub fn value(self, s: AxisSetting) -> Number
        ensures { result ≡ value_of s self }
    {
        let pos = Number::from(self.pos);
        let low = Number::from(self.limit.min);
        let high = Number::from(self.limit.max);
        let speed = Number::from(self.maxspeed);
        match s {
            AxisSetting::Pos => pos,
            AxisSetting::LimitMin => low,
            AxisSetting::LimitMax => high,
            AxisSetting::MaxSpeed => speed,
            AxisSetting::Accel => self.accel,
            AxisSetting::DriverCurrentMax => self.current.max,
            AxisSetting::DriverCurrentRun => self.current.run,
            AxisSetting::DriverCurrentHold => self.current.hold,
            AxisSetting::DriverDir => self.dir,
            AxisSetting::EncoderIndexCount => self.index,
        }
    }

    // May n be a setting's value?
    pub fn allows(self, s: AxisSetting, n: Number) -> bool
        ensures { result ≡ allowsOf s n self }
    {
        n.within(self.range(s))
    }

    fn in_range(self, s: AxisSetting) -> bool
        ensures { result ≡ in_range self s }
    {
        self.allows(s, self.value(s))
    }

    // The settings with one of them set to n; what is read only stays.
    pub fn put(mut self, s: AxisSetting, n: Number) -> Settings
        ensures { result ≡ put_of s n self }
    {
        let mut limit = self.limit;
        let mut current = self.current;
        match s {
            AxisSetting::Pos => self.pos = Position::from(n),
            AxisSetting::LimitMin => {
                limit.min = Position::from(n);
                self.limit = limit;
            }
            AxisSetting::LimitMax => {
                limit.max = Position::from(n);
                self.limit = limit;
            }
            AxisSetting::MaxSpeed => self.maxspeed = Speed::from(n),
            AxisSetting::Accel => self.accel = n,
            AxisSetting::DriverCurrentMax => {}
            AxisSetting::DriverCurrentRun => {
                current.run = n;
                self.current = current;
            }
            AxisSetting::DriverCurrentHold => {
                current.hold = n;
                self.current = current;
            }
            AxisSetting::DriverDir => self.dir = n,
            AxisSetting::EncoderIndexCount => self.index = n,
        }
        self
    }

    // Are all settings in range?
    pub fn good(self) -> bool
        ensures { result ≡ all (in_range self) axis_settings }
    {
        let a = self.in_range(AxisSetting::Pos);
        let b = self.in_range(AxisSetting::LimitMin);
        let c = self.in_range(AxisSetting::LimitMax);
        let d = self.in_range(AxisSetting::MaxSpeed);
        let e = self.in_range(AxisSetting::Accel);
        let f = self.in_range(AxisSetting::DriverCurrentMax);
        let g = self.in_range(AxisSetting::DriverCurrentRun);
        let h = self.in_range(AxisSetting::DriverCurrentHold);
        let i = self.in_range(AxisSetting::DriverDir);
        let j = self.in_range(AxisSetting::EncoderIndexCount);
        a & (b & (c & (d & (e & (f & (g & (h & (i & j))))))))
    }
}
